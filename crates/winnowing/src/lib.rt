// The winnowing of letters: their sketch in two buffers, as far as there is room.
#![tactic(auto)]

mod blocks;
mod codes;
mod measures;
mod reading;
mod scan;
mod windows;

ghost use Rattle.std.specs.Prelude.{◌≡◌};
ghost use Rattle.winnowing.specs.Winnowed.{wrote, is_beyond, winnowed};

use base::{K_LIMIT, LETTER_LIMIT, W_LIMIT, outside};

// Whether k, w or the number of letters is beyond its limit, or a buffer shorter than the room.
#[tactic(auto, unfolding(crate::specs::Winnowed::is_beyond))]
fn is_beyond(k: u32, w: u32, letters: usize, codes: usize, positions: usize, room: usize) -> bool
    ensures { result ≡ is_beyond k w letters codes positions room }
{
    outside(1, K_LIMIT, k)
        || outside(1, W_LIMIT, w)
        || LETTER_LIMIT < letters
        || codes < room
        || positions < room
}

// Writes the first entries of the letters' sketch into the two buffers, as many as there is room for, and answers how many it has.
// Beyond a limit nothing is written, and the answer is 0.
pub fn winnow(
    letters: &[u8],
    k: u32,
    w: u32,
    codes: &mut [u32],
    positions: &mut [u32],
    room: usize,
) -> usize
    ensures { wrote result codes.new positions.new ≡ winnowed k w letters.now room codes.old positions.old }
{
    if is_beyond(k, w, letters.len(), codes.len(), positions.len(), room) {
        return 0;
    }
    scan::scan(letters, k, w, codes, positions, room)
}
