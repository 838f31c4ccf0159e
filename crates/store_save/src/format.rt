// The words of a store, from kind and content, and from k and w.
ghost use Rattle.std.specs.Prelude.{◌≡◌, ◌≤◌, ◌<◌};
ghost use Rattle.base.specs.Limits.{k_limit, w_limit};
ghost use Rattle.store.specs.Words.{kind_unit, word, header};
ghost use Rattle.store.specs.Kinds.{kind_number};

use store::words::{KIND_UNIT, Kind, W_UNIT};

#[tactic(auto, unfolding(store::specs::Words::word))]
pub(crate) fn word(kind: Kind, content: u32) -> u32
    requires { content < kind_unit }
    ensures { result ≡ word (kind_number kind) content }
{
    kind as u32 * KIND_UNIT + content
}

#[tactic(auto, unfolding(store::specs::Words::header))]
pub(crate) fn header(k: u32, w: u32) -> u32
    requires { (k ≤ k_limit) × (w ≤ w_limit) }
    ensures { result ≡ header k w }
{
    word(Kind::Header, w * W_UNIT + k)
}
