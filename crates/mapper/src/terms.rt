// What the scores of a session share, read from its work words.
ghost use Rattle.std.specs.Prelude.{◌≡◌};
ghost use Rattle.mapper.specs.Walking.{terms_in};

use crate::score::unbiased;
use base::WORK_WORDS;
use mappings::Scoring;
use session_words::{KIND, SIZE, THRESHOLD, U, V};

// The scoring, and the pattern's length.
#[derive(Clone, Copy, Debug, PartialEq, Eq)]
pub struct Terms {
    pub scoring: Scoring,
    pub size: u32,
}

// Those of the session in these words. The kind of score is 0, linear, or 1, Jaccard.
pub fn terms_of(work: &[u32; WORK_WORDS]) -> Terms
    ensures { result ≡ terms_in work.now }
{
    // Read under both kinds, which costs less than a branch.
    let threshold = unbiased(work[THRESHOLD]);
    let scoring = match work[KIND] {
        1 => Scoring::Jaccard {
            f: work[U],
            g: work[V],
        },
        _ => Scoring::Linear {
            u: work[U],
            v: work[V],
            threshold,
        },
    };
    Terms {
        scoring,
        size: work[SIZE],
    }
}
