// What a scoring gives the work words: the numbers of words 1, 2 and 4, and the threshold as a score word.
ghost use Rattle.std.specs.Prelude.{◌≡◌, ◌≤◌};
ghost use Rattle.base.specs.Limits.{divisor_limit};
ghost use Rattle.mappings.specs.Bias.{biased_z};
ghost use Rattle.session_start.specs.ScoreWords.{threshold_word};
ghost use Rattle.session_start.specs.Numbers.{first_number, second_number, kind_number};

use crate::judging::Allowed;
use mappings::Scoring;
use session_words::{BIAS, DIVISOR_SPAN};

pub(crate) fn first_number(scoring: Scoring) -> u32
    ensures { result ≡ first_number scoring }
{
    match scoring {
        Scoring::Linear { u, .. } => u,
        Scoring::Jaccard { f, .. } => f,
    }
}

pub(crate) fn second_number(scoring: Scoring) -> u32
    ensures { result ≡ second_number scoring }
{
    match scoring {
        Scoring::Linear { v, .. } => v,
        Scoring::Jaccard { g, .. } => g,
    }
}

pub(crate) fn kind_number(scoring: Scoring) -> u32
    ensures { result ≡ kind_number scoring }
{
    match scoring {
        Scoring::Linear { .. } => 0,
        Scoring::Jaccard { .. } => 1,
    }
}

// A signed number plus 2^31, so that unsigned words order as signed numbers do.
fn biased(z: i32) -> u32
    ensures { result ≡ biased_z z }
{
    (z as i64 + BIAS as i64) as u32
}

// f/g as a word: for f = 0 the least one, since no cell scores below what it stands for.
fn fraction_word(f: u32, g: u32) -> u32
    requires { (f ≤ divisor_limit) × (g ≤ divisor_limit) }
    ensures { result ≡ threshold_word (Scoring.Jaccard f g) }
{
    if f < 1 {
        return 0;
    }
    (f - 1) * DIVISOR_SPAN + (DIVISOR_SPAN - 1 - g)
}

pub(crate) fn threshold_word(allowed: Allowed) -> u32
    ensures { result ≡ threshold_word allowed.scoring }
{
    match allowed.scoring {
        Scoring::Linear { threshold, .. } => biased(threshold),
        Scoring::Jaccard { f, g } => fraction_word(f, g),
    }
}
