// Looking words up among those of a list in order.
ghost use Rattle.std.specs.Prelude.{◌≡◌, ◌≤◌, length};
ghost use Rattle.base.specs.Limits.{text_limit};
ghost use Rattle.base.specs.Zeros.{zeros};
ghost use Rattle.sorting.specs.Sorting.{Sorted};
ghost use Rattle.marking.specs.Marks.{mark_of, marks_of};
ghost use Rattle.marking.specs.Slots.{slot_count, Heads};

use crate::slots::{SLOTS, slot};
use base::copies;
use sorting::search::lower_bound;

// Notes for each slot the place, from 1, of a word of the list that is in it; 0 stands for none.
fn fill_heads(list: &[u32], heads: &mut [u16; SLOTS])
    requires none { heads.old ≡ zeros slot_count }
    requires few { length list.now ≤ text_limit }
    ensures { Heads list.now heads.new }
{
    for (i, word) in list.iter().enumerate() {
        heads[slot(*word)] = (i + 1) as u16;
    }
}

// Words in order, with the heads of their slots at hand.
#[derive(Clone, Copy)]
struct Lookup<'a> {
    list: &'a [u32],
    heads: &'a [u16; SLOTS],
    ghost in_order: { Sorted list.now },
    ghost noted: { Heads list.now heads.now },
}

impl Lookup<'_> {
    // 0 for a word of the list, else 1: the word noted for its slot mostly settles it.
    fn mark(self, word: u32) -> u8
        ensures { result ≡ mark_of self.entry.list.now 0 word }
    {
        let head = self.heads[slot(word)] as usize;
        if head == 0 {
            return 1;
        }
        if self.list[head - 1] == word {
            return 0;
        }
        self.mark_by_search(word)
    }

    fn mark_by_search(self, word: u32) -> u8
        ensures { result ≡ mark_of self.entry.list.now 0 word }
    {
        match self.list.get(lower_bound(self.list, word)) {
            Some(found) if *found == word => 0,
            _ => 1,
        }
    }

    fn mark_all(self, words: &[u32], marks: &mut [u8])
        requires { length marks.old ≡ length words.now }
        ensures { marks.new ≡ marks_of self.entry.list.now 0 words.now }
    {
        for (i, word) in words.iter().enumerate() {
            marks[i] = self.mark(*word);
        }
    }
}

// Marks the words that are not of the list by 1, the others by 0. Mostly no word occurs too often, and the list is empty.
pub(crate) fn mark_by_list(list: &[u32], words: &[u32], marks: &mut [u8])
    requires in_order { Sorted list.now }
    requires few { length list.now ≤ text_limit }
    requires same_len { length marks.old ≡ length words.now }
    ensures { marks.new ≡ marks_of list.now 0 words.now }
{
    if list.is_empty() {
        marks.fill(1);
        return;
    }
    let mut heads = copies(0);
    fill_heads(list, &mut heads);
    let lookup = Lookup {
        list,
        heads: &heads,
    };
    lookup.mark_all(words, marks);
}
