// What a cell of a line counts, and m along a column. A score word is a number, a score plus 2^31, so that unsigned words order as scores
// do; or a fraction, m and a divisor. All sums and products are cut to words, so that words that no start made stay within their range.
ghost use Rattle.std.specs.Prelude.{◌≡◌, ◌≤◌, ◌<◌, ltb};
ghost use Rattle.base.specs.Lists.{bit};
ghost use Rattle.session_records.specs.Words.{divisor_span};
ghost use Rattle.session_records.specs.Words as Words;
ghost use Rattle.session_cells.specs.Passing as Passing;

use crate::cells::Line;
use session_words::DIVISOR_SPAN;

// The m of a fraction. At most 2048 and a divisor below 2^21: their product is a word.
#[tactic(auto, unfolding(session_records::specs::Words::numerator))]
pub(crate) fn numerator(word: u32) -> u32
    ensures { (result ≡ Words.numerator word) × (result ≤ 2048) }
{
    word / DIVISOR_SPAN + 1
}

// The divisor of a fraction.
#[tactic(auto, unfolding(session_records::specs::Words::denominator))]
pub(crate) fn denominator(word: u32) -> u32
    ensures { (result ≡ Words.denominator word) × (result < divisor_span) }
{
    DIVISOR_SPAN - 1 - word % DIVISOR_SPAN
}

// m less one or less none.
pub fn lowered(m: u32, one: u32) -> u32
    ensures { result ≡ Passing.lowered m one }
{
    m.wrapping_sub(one)
}

impl Line {
    // The score word of a cell with this m, whose left end has index x: gain·m + v·x + base.
    pub(crate) fn score_word(self, m: u32, x: u32) -> u32
        ensures { result ≡ Passing.line_score self m x }
    {
        let shared = self.gain.wrapping_mul(m);
        let before = self.v.wrapping_mul(x);
        shared.wrapping_add(before).wrapping_add(self.base)
    }

    // The divisor of a cell's fraction: what the column's base holds, less x and m.
    pub(crate) fn divisor(self, m: u32, x: u32) -> u32
        ensures { result ≡ Passing.line_divisor self m x }
    {
        (!self.base).wrapping_sub(x).wrapping_sub(m)
    }

    // 1 where a left end with this reach is reasonable in the line's column, else 0.
    pub(crate) fn reaches(self, reach: u32) -> u32
        ensures { result ≡ bit (ltb self.column reach) }
    {
        u32::from(self.column < reach)
    }
}
