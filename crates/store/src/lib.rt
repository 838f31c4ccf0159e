// The store of a sketch: what a load gives back, and which codes and positions a store holds. words.rt has how its words are laid out.
#![tactic(auto)]

pub mod words;

ghost use Rattle.std.specs.Prelude.{◌≡◌, ◌^◌, min};
ghost use Rattle.base.specs.Limits.{k_limit};
ghost use Rattle.store.specs.Words.{is_position};

pub use words::{KIND_UNIT, W_SPAN, W_UNIT};

// What a store that loads was made of: k and w, and how many entries were written.
#[derive(Clone, Copy, Debug, PartialEq, Eq)]
pub struct Stored {
    pub k: u32,
    pub w: u32,
    pub entries: usize,
}

// 4^k, which codes are below; for a k above 15, that of 15.
pub fn code_limit(k: u32) -> u32
    ensures { result ≡ 4 ^ min k k_limit }
{
    4u32.pow(k.min(base::K_LIMIT))
}

// A position is at least `low`: one more than the position before it.
#[tactic(auto, unfolding(crate::specs::Words::is_position))]
pub fn is_position(x: u32, low: u32) -> bool
    ensures { result ≡ is_position low x }
{
    low <= x && (x as usize) < base::LETTER_LIMIT
}
