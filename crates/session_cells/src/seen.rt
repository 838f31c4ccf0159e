// The order of score words, which are numbers or fractions, as a trait: code over rows is written once, and neither kind has to ask which
// it is.
ghost use Rattle.std.specs.Prelude.{◌≡◌, ℕ, Bool};
ghost use Rattle.session_records.specs.Words as Words;
ghost use Rattle.session_records.specs.Records as Records;
ghost use Rattle.session_cells.specs.Passing.{matters};

use crate::cells::Line;

// The greatest score word that rows have seen, kept so that the next cell is compared with it at once.
pub(crate) trait Seen: Copy {
    // Score words are fractions, else numbers.
    ghost fractions: { Bool };

    ghost word: { Self → ℕ };

    fn at_most(a: u32, b: u32) -> bool
        ensures { result ≡ Words.at_most fractions a b };

    // The greater of two score words, and the first where they are equal.
    fn greater(a: u32, b: u32) -> u32
        ensures { result ≡ Records.greater (Words.at_most fractions) a b };

    fn of(score: u32) -> Self
        ensures { word result ≡ score };

    fn word(self) -> u32
        ensures { result ≡ word self };

    // With a row's record seen too.
    fn raised(self, best: u32) -> Self
        ensures { word result ≡ Records.greater (Words.at_most fractions) (word self) best };

    // The cell of the line with this m and x has at least the score that was seen.
    fn is_reached(self, line: Line, m: u32, x: u32) -> bool
        requires { line.fractions ≡ fractions }
        ensures { result ≡ matters line (word self) m x };
}
