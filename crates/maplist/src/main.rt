// The program `maplist`: from standard input a line of numbers, a text and a read; to standard output every final mapping of the read's
// sketch in the text's, and of that of its reverse complement. What it prints is decided in `list_output`. It assumes what the C library's read and write do.
#![tactic(auto)]

ghost use Rattle.std.specs.Prelude.{◌≡◌, length};
ghost use Rattle.list_input.specs.Input.{input_limit};

use list_output::beginning::begin;
use list_output::filling::fill;

// So many bytes of the input decide what is printed.
fn input_bytes() -> [u8; 8261]
    ensures { input_limit ≡ length result }
{
    [0; 8261]
}

fn main() {
    let mut input = input_bytes();
    let n = io::read_full(0, &mut input);
    let mut positions = [0u32; 4096];
    let mut forward = [0u32; 16384];
    let mut reverse = [0u32; 16384];
    let mut out = io::large_buffer();
    let begun = begin(
        &input[..n],
        &mut positions,
        &mut forward,
        &mut reverse,
        &mut out,
    );
    if !io::write_all(1, &out[..begun.written]) {
        return;
    }
    let Some(sessions) = begun.sessions else {
        return;
    };
    let mut left = begun.left;
    let mut found = 0;
    while 0 < left {
        let filled = fill(
            &mut forward,
            &mut reverse,
            &positions,
            sessions,
            found,
            &mut out,
        );
        if !io::write_all(1, &out[..filled.written]) {
            return;
        }
        left = filled.left;
        found = filled.found;
    }
}
