// `save` writes a sketch's entries as words of 32 bits: its store.
#![tactic(auto)]

mod entries;
mod format;

ghost use Rattle.std.specs.Prelude.{◌≡◌, length};
ghost use Rattle.base.specs.Refusals.{reply_of};
ghost use Rattle.store.specs.Save.{save_reply, save_words};

use base::refusal::Refusal;

// Writes the store of the entries in `codes` and `positions` to the front of `words`: the number of words written.
#[tactic(auto, using(store::proofs::Entries::lengths), unfolding(store::specs::Save::save_reply, store::specs::Save::save_words))]
pub fn save(
    codes: &[u32],
    positions: &[u32],
    k: u32,
    w: u32,
    words: &mut [u32],
) -> Result<usize, Refusal>
    ensures result_value { reply_of result ≡ save_reply k w codes.now positions.now (length words.old) }
    ensures words_after { words.new ≡ save_words k w codes.now positions.now words.old }
{
    if base::outside(1, base::K_LIMIT, k) {
        return Err(Refusal::BadK);
    }
    if base::outside(1, base::W_LIMIT, w) {
        return Err(Refusal::BadW);
    }
    if codes.len() != positions.len() || !entries::are_storable(codes, positions, k) {
        return Err(Refusal::BadEntries);
    }
    let needed = 2 * codes.len() + 2;
    if words.len() < needed {
        return Err(Refusal::TooShort(needed));
    }
    entries::write(codes, positions, k, w, words);
    Ok(needed)
}
