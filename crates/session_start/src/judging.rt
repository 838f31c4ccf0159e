// Whether start refuses a scoring: weights, or the fraction of a threshold, outside their limits.
ghost use Rattle.std.specs.Prelude.{◌≡◌, false, MatchResult};
ghost use Rattle.base.specs.Replies.{Reply};
ghost use Rattle.base.specs.Refusals.{refused_by};
ghost use Rattle.session_start.specs.Start.{bad_weights, bad_fraction, judged};
ghost use Rattle.session_start.specs.Noting.{bad_scoring};

use base::refusal::Refusal;
use base::{DIVISOR_LIMIT, WEIGHT_LIMIT, outside};
use mappings::Scoring;

// Whether u or v is no weight.
#[tactic(auto, unfolding(crate::specs::Start::bad_weights))]
pub fn bad_weights(u: u32, v: u32) -> bool
    ensures { result ≡ bad_weights u v }
{
    outside(1, WEIGHT_LIMIT, u) || outside(1, WEIGHT_LIMIT, v)
}

// Whether f/g is no threshold.
#[tactic(auto, unfolding(crate::specs::Start::bad_fraction))]
pub fn bad_fraction(f: u32, g: u32) -> bool
    ensures { result ≡ bad_fraction f g }
{
    outside(1, DIVISOR_LIMIT, g) || g < f
}

// A scoring that start does not refuse.
#[derive(Clone, Copy, Debug, PartialEq, Eq)]
pub(crate) struct Allowed {
    pub(crate) scoring: Scoring,
    ghost in_limits: { bad_scoring scoring ≡ false },
}

pub(crate) fn judge(scoring: Scoring) -> Result<Allowed, Refusal>
    ensures { MatchResult result (λ allowed. allowed.scoring ≡ scoring)
        (λ refusal. (next : Reply) → refused_by refusal ≡ judged scoring next) }
{
    match scoring {
        Scoring::Linear { u, v, .. } if bad_weights(u, v) => Err(Refusal::BadWeights),
        Scoring::Jaccard { f, g } if bad_fraction(f, g) => Err(Refusal::BadFraction),
        _ => Ok(Allowed { scoring }),
    }
}
