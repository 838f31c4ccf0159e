// Score words that are fractions, m and a divisor, ordered by cross products. What was seen is kept taken apart, so that a row without a
// record costs two products. A cell's own score word, which is longer to make, is not needed to compare it.
ghost use Rattle.std.specs.Prelude.{◌≡◌, true, ◌*◌, ◌≤◌, ◌<◌, leb};
ghost use Rattle.session_records.specs.Words.{divisor_span};
ghost use Rattle.session_records.specs.Words as Words;

use crate::cells::Line;
use crate::score::{denominator, numerator};
use crate::seen::Seen;

// A score word, and its fraction taken apart, as factors of products of 64 bits.
#[derive(Clone, Copy)]
pub(crate) struct Fraction {
    word: u32,
    m: u64,
    divisor: u64,
    ghost apart: { (m ≡ Words.numerator word) × (divisor ≡ Words.denominator word) },
    ghost small: { (m ≤ 2048) × (divisor < divisor_span) },
}

impl Fraction {
    // A fraction is at most m / d. Both are any words, so the products have 64 bits.
    fn is_at_most(self, m: u32, d: u32) -> bool
        ensures { result ≡ leb (Words.numerator self.word * d) (m * Words.denominator self.word) }
    {
        self.m * d as u64 <= m as u64 * self.divisor
    }
}

impl Seen for Fraction {
    ghost fractions = { true };

    ghost word = { λ seen. seen.word };

    fn at_most(a: u32, b: u32) -> bool {
        numerator(a) * denominator(b) <= numerator(b) * denominator(a)
    }

    // Word 0 stands for no record, as in most rows: no product is needed.
    fn greater(a: u32, b: u32) -> u32 {
        if b == 0 {
            return a;
        }
        if Fraction::at_most(b, a) { a } else { b }
    }

    fn of(score: u32) -> Fraction {
        Fraction {
            word: score,
            m: numerator(score) as u64,
            divisor: denominator(score) as u64,
        }
    }

    fn word(self) -> u32 {
        self.word
    }

    // Most rows have no record: nothing is taken apart there.
    fn raised(self, best: u32) -> Fraction {
        if best == 0 {
            return self;
        }
        Fraction::of(Fraction::greater(self.word, best))
    }

    fn is_reached(self, line: Line, m: u32, x: u32) -> bool {
        self.is_at_most(m, line.divisor(m, x))
    }
}
