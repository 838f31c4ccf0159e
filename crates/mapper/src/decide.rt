// The deciding test at a candidate: its score, from the scoring and the counts, against the threshold of the session.
ghost use Rattle.std.specs.Prelude.{◌≡◌, true, false, MatchOption};
ghost use Rattle.mappings.specs.Score.{threshold_of, at_most};
ghost use Rattle.mapper.specs.Deciding.{is_small, is_scorable, candidate_score, decided as decided_answer};

use crate::answer::Stepped;
use crate::score::score;
use crate::terms::Terms;
use base::{DIVISOR_LIMIT, PATTERN_LIMIT, TEXT_LIMIT, WEIGHT_LIMIT};
use mappings::{Score, Scoring};

// A candidate: the interval from a to b with its m, and the cells passed up to it.
#[derive(Clone, Copy, Debug, PartialEq, Eq)]
pub struct Candidate {
    pub a: u32,
    pub b: u32,
    pub m: u32,
    pub cells: u32,
}

// The numbers of the scoring are at most those that start accepts.
fn is_small(scoring: Scoring) -> bool
    ensures { result ≡ is_small scoring }
{
    match scoring {
        Scoring::Linear { u, v, .. } => u <= WEIGHT_LIMIT && v <= WEIGHT_LIMIT,
        Scoring::Jaccard { f, g } => f <= DIVISOR_LIMIT && g <= DIVISOR_LIMIT,
    }
}

// Scoring and counts are such as sessions have, so that the score of [a, b] fits 32 bits.
#[tactic(auto, unfolding(crate::specs::Deciding::is_scorable, mappings::specs::Score::length_of))]
fn is_scorable(terms: Terms, at: Candidate) -> bool
    ensures { result ≡ is_scorable terms at.a at.b at.m }
{
    is_small(terms.scoring)
        && terms.size <= PATTERN_LIMIT as u32
        && at.a <= at.b
        && at.b - at.a < TEXT_LIMIT as u32
        && at.m <= terms.size
        && at.m <= at.b - at.a + 1
}

// The score of the candidate, where it is at least the threshold. Fractions are compared by cross products, which fit 32 bits.
fn enough(terms: Terms, at: Candidate) -> Option<Score>
    requires { is_scorable terms at.a at.b at.m ≡ true }
    ensures { MatchOption result
        (at_most (threshold_of terms.scoring) (candidate_score terms at.a at.b at.m) ≡ false)
        (λ s. (s ≡ candidate_score terms at.a at.b at.m) × (at_most (threshold_of terms.scoring) (candidate_score terms at.a at.b at.m) ≡ true)) }
{
    let len = at.b - at.a + 1;
    match terms.scoring {
        Scoring::Linear { u, v, threshold } => {
            let score = score(u, v, terms.size, at.m, len);
            if threshold <= score {
                return Some(Score::Number(score));
            }
        }
        Scoring::Jaccard { f, g } => {
            let divisor = len + terms.size - at.m;
            let needed = f * divisor;
            let reached = at.m * g;
            if needed <= reached {
                return Some(Score::Fraction { m: at.m, divisor });
            }
        }
    }
    None
}

// What is answered at the candidate: found, where its score is at least the threshold. In a session it always is, since score words order
// as scores do.
pub fn decided(terms: Terms, at: Candidate) -> Stepped
    ensures { result ≡ decided_answer terms at.a at.b at.m at.cells }
{
    if !is_scorable(terms, at) {
        return Stepped::Spent(at.cells);
    }
    match enough(terms, at) {
        Some(score) => Stepped::Found {
            a: at.a,
            b: at.b,
            score,
            m: at.m,
            cells: at.cells,
        },
        None => Stepped::Spent(at.cells),
    }
}
