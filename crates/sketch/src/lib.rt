// Sketches of letters: the sketch in two buffers, and the count of its entries.
#![tactic(auto)]

ghost use Rattle.std.specs.Prelude.{◌≤◌, ◌≡◌, length, IfOk};
ghost use Rattle.base.specs.Limits.{k_limit, w_limit, letter_limit};
ghost use Rattle.base.specs.Replies.{Reply};
ghost use Rattle.base.specs.Refusals.{reply_of};
ghost use Rattle.minimizers.specs.Sketch.{sketch};
ghost use Rattle.sketch.specs.Replies.{checked_letters, count_reply};
ghost use Rattle.sketch.specs.Answers.{Sketches, checked_reply};

use base::refusal::Refusal;
use base::{K_LIMIT, LETTER_LIMIT, W_LIMIT, outside, smaller};
use winnowing::winnow;

// Refuses k, the window or the number of letters outside its limits, in this order.
fn check(letters: &[u8], k: u32, w: u32) -> Result<(), Refusal>
    ensures inside { IfOk result (λ _. (1 ≤ k) × (k ≤ k_limit) × (1 ≤ w) × (w ≤ w_limit) × (length letters.now ≤ letter_limit)) }
    ensures reply { (rest : Reply) → checked_letters k w letters.now rest ≡ checked_reply result rest }
{
    if outside(1, K_LIMIT, k) {
        return Err(Refusal::BadK);
    }
    if outside(1, W_LIMIT, w) {
        return Err(Refusal::BadW);
    }
    if LETTER_LIMIT < letters.len() {
        return Err(Refusal::TooManyLetters);
    }
    Ok(())
}

// How many entries the sketch has: winnowing with no room to write.
fn entries(letters: &[u8], k: u32, w: u32) -> usize
    requires { (1 ≤ k) × (k ≤ k_limit) × (1 ≤ w) × (w ≤ w_limit) × (length letters.now ≤ letter_limit) }
    ensures { result ≡ length (sketch k w letters.now) }
{
    winnow(letters, k, w, &mut [], &mut [], 0)
}

// Writes the sketch of the letters into the two buffers. It has no more entries than there are letters, so they are counted first
// only where a buffer is shorter than the letters.
pub fn sketch(
    letters: &[u8],
    k: u32,
    w: u32,
    codes: &mut [u32],
    positions: &mut [u32],
) -> Result<usize, Refusal>
    ensures { Sketches k w letters.now codes.old positions.old result codes.new positions.new }
{
    check(letters, k, w)?;
    let room = smaller(codes.len(), positions.len());
    if room < letters.len() {
        let needed = entries(letters, k, w);
        if room < needed {
            return Err(Refusal::TooShort(needed));
        }
    }
    Ok(winnow(letters, k, w, codes, positions, room))
}

// The count of entries that a sketch would have.
pub fn count(letters: &[u8], k: u32, w: u32) -> Result<usize, Refusal>
    ensures reply { reply_of result ≡ count_reply k w letters.now }
    ensures within { IfOk result (λ n. n ≤ letter_limit) }
{
    check(letters, k, w)?;
    Ok(entries(letters, k, w))
}
