// The terms of a session whose scoring's numbers are so small that score words fit.
ghost use Rattle.std.specs.Prelude.{◌≤◌, ◌<◌};
ghost use Rattle.base.specs.Limits.{weight_limit, word_limit};
ghost use Rattle.session_rule.specs.Lines.{gain_of, loss_of};

use crate::terms::Terms;

#[derive(Clone, Copy, Debug, PartialEq, Eq)]
pub struct SmallTerms {
    pub terms: Terms,
    ghost small_loss: { loss_of terms.scoring ≤ weight_limit },
    ghost small_gain: { gain_of terms.scoring < word_limit },
}
