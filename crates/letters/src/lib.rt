// Letters and their values.
#![tactic(auto)]

ghost use Rattle.std.specs.Prelude.{◌≡◌};
ghost use Rattle.kmers.specs.Letters.{value};
ghost use Rattle.letters.specs.Computed.{computed};

// What stands for the value of a letter outside the eight.
pub const FOREIGN: u8 = 4;

// The value of one of the eight by arithmetic: s is two bits of the byte, and 2 and 3 change places.
fn computed(b: u8) -> u8
    ensures { result ≡ computed b }
{
    let s = b / 2 % 4;
    if s < 2 {
        return s;
    }
    s ^ 1
}

// The value of a letter: 0 to 3 for the eight, FOREIGN for any other byte.
pub fn value(b: u8) -> u8
    ensures { result ≡ value b }
{
    match b {
        b'A' | b'C' | b'G' | b'T' | b'a' | b'c' | b'g' | b't' => computed(b),
        _ => FOREIGN,
    }
}
