// A filter in front of the sort: words are counted in slots by a multiplicative hash. A word occurs at most as often as its slot
// holds words, so a word whose slot holds few is rare, and only the others need be sorted.
ghost use Rattle.std.specs.Prelude.{◌≡◌, ℕ, ◌≤◌, ◌<◌, ltb, length, get_or, take};
ghost use Rattle.base.specs.Lists.{bit};
ghost use Rattle.base.specs.Zeros.{zeros};
ghost use Rattle.marking.specs.Slots.{slot_count, slot_of, in_slot, suspects_of};

use crate::Deciding;
use base::copies;

// Not the multiplier of the rank: minimizers have low ranks, which that one would crowd into few slots.
const MULTIPLIER: u32 = 2246822519;

pub(crate) const SLOTS: usize = 65536;

pub(crate) fn slot(word: u32) -> usize
    ensures value { result ≡ slot_of word }
    ensures bound { result < slot_count }
{
    (word.wrapping_mul(MULTIPLIER) >> 16) as usize
}

// 1 where a slot holds more than `limit` words, else 0.
fn crowded(count: u16, limit: u32) -> usize
    ensures value { result ≡ bit (ltb limit count) }
    ensures bound { result ≤ 1 }
{
    usize::from(limit < u32::from(count))
}

impl Deciding<'_> {
    // Counts the words of each slot; 16 bits are enough for as many words as may decide.
    fn tally(self, slots: &mut [u16; SLOTS])
        requires { slots.old ≡ zeros slot_count }
        ensures { (v : ℕ) → v < slot_count → get_or slots.new v 0 ≡ in_slot self.entry.words.now v }
    {
        for word in self.words {
            slots[slot(*word)] += 1;
        }
    }

    // Copies the words of crowded slots to the start of `out`, and answers their number. A word of another slot is written too, where
    // the next one then goes: that costs less than a branch that cannot be foreseen.
    fn collect(self, slots: &[u16; SLOTS], out: &mut [u32]) -> usize
        requires room { length self.words.now ≤ length out.old }
        requires counted { (v : ℕ) → v < slot_count → get_or slots.now v 0 ≡ in_slot self.words.now v }
        ensures bound { result ≤ length self.entry.words.now }
        ensures out_after { take result out.new ≡ suspects_of self.entry.words.now self.entry.limit }
    {
        let mut at = 0;
        for word in self.words {
            out[at] = *word;
            at += crowded(slots[slot(*word)], self.limit);
        }
        at
    }

    // The words whose slot is crowded, at the start of `out`.
    pub(crate) fn suspects(self, out: &mut [u32]) -> usize
        requires { length self.words.now ≤ length out.old }
        ensures bound { result ≤ length self.entry.words.now }
        ensures out_after { take result out.new ≡ suspects_of self.entry.words.now self.entry.limit }
    {
        let mut slots = copies(0);
        self.tally(&mut slots);
        self.collect(&slots, out)
    }
}
