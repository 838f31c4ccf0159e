// Score words that are numbers: they order as words do.
ghost use Rattle.std.specs.Prelude.{false};

use crate::cells::Line;
use crate::seen::Seen;

#[derive(Clone, Copy)]
pub(crate) struct Number {
    word: u32,
}

impl Seen for Number {
    ghost fractions = { false };

    ghost word = { λ seen. seen.word };

    #[tactic(auto, unfolding(session_records::specs::Words::at_most))]
    fn at_most(a: u32, b: u32) -> bool {
        a <= b
    }

    #[tactic(auto, unfolding(session_records::specs::Words::at_most, session_records::specs::Records::greater))]
    fn greater(a: u32, b: u32) -> u32 {
        if a < b { b } else { a }
    }

    fn of(score: u32) -> Number {
        Number { word: score }
    }

    fn word(self) -> u32 {
        self.word
    }

    fn raised(self, best: u32) -> Number {
        Number {
            word: Number::greater(self.word, best),
        }
    }

    fn is_reached(self, line: Line, m: u32, x: u32) -> bool {
        self.word <= line.score_word(m, x)
    }
}
