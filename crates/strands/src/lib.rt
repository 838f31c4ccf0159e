// The two strands that a read may come from, and the reverse complement: what a read of the other strand says of this one.
#![tactic(auto)]

ghost use Rattle.std.specs.Prelude.{◌≡◌, length};
ghost use Rattle.base.specs.Refusals.{reply_of};
ghost use Rattle.strands.specs.Complement.{complement, complement_reply, complement_bytes};

use base::refusal::Refusal;

// The strand of a mapping: the read maps as it is given, or its reverse complement does.
#[derive(Clone, Copy, Debug, PartialEq, Eq)]
pub enum Strand {
    Forward,
    Reverse,
}

// The complement of a letter, in upper case; any other byte is kept.
#[tactic(auto, unfolding(crate::specs::Complement::complement))]
fn complement(b: u8) -> u8
    ensures { result ≡ complement b }
{
    match b {
        b'A' | b'a' => b'T',
        b'C' | b'c' => b'G',
        b'G' | b'g' => b'C',
        b'T' | b't' => b'A',
        _ => b,
    }
}

// Writes the reverse complement of a read to the start of `out`, and answers its length. Where it does not fit nothing is written.
pub fn reverse_complement(read: &[u8], out: &mut [u8]) -> Result<usize, Refusal>
    ensures result_value { reply_of result ≡ complement_reply read.now (length out.old) }
    ensures out_after { out.new ≡ complement_bytes read.now out.old }
{
    let n = read.len();
    if out.len() < n {
        return Err(Refusal::TooShort(n));
    }
    for (i, letter) in read.iter().rev().enumerate() {
        out[i] = complement(*letter);
    }
    Ok(n)
}
