// Whether entries can be stored, and the words of their store.
ghost use Rattle.std.specs.Prelude.{◌≡◌, true, ◌+◌, ◌*◌, ◌≤◌, length};
ghost use Rattle.base.specs.Replies.{over};
ghost use Rattle.base.specs.Limits.{k_limit, w_limit};
ghost use Rattle.kmers.specs.Kmers.{entries};
ghost use Rattle.store.specs.Save.{stored, storable};

use crate::format::{header, word};
use store::words::Kind;

// Each code is below 4^k, and the positions rise strictly and are in range. It stays out of line: inline, its loop lacks registers
// and takes a quarter longer.
#[inline(never)]
pub(crate) fn are_storable(codes: &[u32], positions: &[u32], k: u32) -> bool
    requires { (k ≤ k_limit) × (length codes.now ≡ length positions.now) }
    ensures { result ≡ storable k 0 (entries codes.now positions.now) }
{
    let limit = store::code_limit(k);
    let mut low = 0;
    for (code, position) in codes.iter().zip(positions) {
        if limit <= *code || !store::is_position(*position, low) {
            return false;
        }
        low = *position + 1;
    }
    true
}

// The words of a store, from the front of `words`.
pub(crate) fn write(codes: &[u32], positions: &[u32], k: u32, w: u32, words: &mut [u32])
    requires k_le_k_limit { (k ≤ k_limit) × (w ≤ w_limit) }
    requires codes_len { length codes.now ≡ length positions.now }
    requires positions_value { storable k 0 (entries codes.now positions.now) ≡ true }
    requires codes_in_bounds { 2 * length codes.now + 2 ≤ length words.old }
    ensures { words.new ≡ over (stored k w (entries codes.now positions.now)) words.old }
{
    words[0] = header(k, w);
    for (i, code) in codes.iter().enumerate() {
        words[2 * i + 1] = word(Kind::Code, *code);
        words[2 * i + 2] = word(Kind::Position, positions[i]);
    }
    words[2 * codes.len() + 1] = word(Kind::End, codes.len() as u32);
}
