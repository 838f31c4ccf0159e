// What the score words of a session's cells gain and lose, by its scoring.
ghost use Rattle.std.specs.Prelude.{◌≡◌};
ghost use Rattle.session_start.specs.ScoreWords.{by_fractions};
ghost use Rattle.session_rule.specs.Lines.{gain_of, loss_of, lift_of};

use crate::small::SmallTerms;
use base::{WEIGHT_LIMIT, WORD_LIMIT};
use mappings::Scoring;
use session_words::{BIAS, DIVISOR_SPAN};

// A multiple of 2^32, which words do not show, that is more than can be lost: the loss is at most WEIGHT_LIMIT, and two words with one are
// less than twice WORD_LIMIT, whatever the words hold.
const MARGIN: u64 = 2 * WEIGHT_LIMIT as u64 * WORD_LIMIT;

// What score words gain with m and lose with the length, what is added to them, and whether they are fractions.
#[derive(Clone, Copy, Debug, PartialEq, Eq)]
pub struct Rates {
    pub small: SmallTerms,
    pub gain: u32,
    pub loss: u32,
    pub lift: u64,
    pub fractions: bool,
    ghost gain_is: { gain ≡ gain_of small.terms.scoring },
    ghost loss_is: { loss ≡ loss_of small.terms.scoring },
    ghost lift_is: { lift ≡ lift_of small.terms.scoring },
    ghost fractions_is: { fractions ≡ by_fractions small.terms.scoring },
}

pub fn rates_of(small: SmallTerms) -> Rates
    ensures { result.small ≡ small }
{
    match small.terms.scoring {
        Scoring::Linear { u, v, .. } => Rates {
            small,
            gain: u + 2 * v,
            loss: v,
            lift: MARGIN + BIAS as u64,
            fractions: false,
        },
        Scoring::Jaccard { .. } => Rates {
            small,
            gain: DIVISOR_SPAN + 1,
            loss: 1,
            lift: MARGIN - 1,
            fractions: true,
        },
    }
}
