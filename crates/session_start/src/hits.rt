// Hits of the text: one pass over it that searches each entry among the pattern's words in order.
ghost use Rattle.std.specs.Prelude.{◌≡◌, ◌≤◌, length, set};
ghost use Rattle.base.specs.Limits.{text_limit};
ghost use Rattle.session_start.specs.Noting.{one_at, Noted};

use crate::ordered::Ordered;
use sorting::search::lower_bound;

// 1 where x stands at this index of the words, else 0.
pub(crate) fn one_at(words: &[u32], at: usize, x: u32) -> u32
    ensures { (result ≡ one_at words.now at x) × (result ≤ 1) }
{
    (at < words.len() && words[at] == x) as u32
}

// Notes a word of hit h, where there is room for it.
fn note(h: usize, word: u32, notes: &mut [u32])
    ensures { notes.new ≡ set notes.old h word }
{
    if h < notes.len() {
        notes[h] = word;
    }
}

// The number of hits; of as many as there is room for, the index in the text and the slot: where the entry's word begins among the
// pattern's words in order. An entry that is no hit is noted too, where the next hit then goes: that costs less than a branch
// that cannot be foreseen.
pub(crate) fn collect(text: &[u32], sorted: Ordered, index: &mut [u32], slots: &mut [u32]) -> usize
    requires { length text.now ≤ text_limit }
    ensures { Noted text.now sorted.entry.words.now index.new slots.new result }
{
    let mut h = 0;
    for (i, word) in text.iter().enumerate() {
        let slot = lower_bound(sorted.words, *word);
        note(h, i as u32, index);
        note(h, slot as u32, slots);
        h += one_at(sorted.words, slot, *word) as usize;
    }
    h
}
