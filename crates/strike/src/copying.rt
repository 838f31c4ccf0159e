// Counting and copying the words that are marked.
ghost use Rattle.std.specs.Prelude.{◌≡◌, ℕ, ◌≤◌, length, get_or};
ghost use Rattle.base.specs.Limits.{text_limit};
ghost use Rattle.base.specs.Lists.{sum};
ghost use Rattle.base.specs.Replies.{over};
ghost use Rattle.strike.specs.Marked.{marked_words};

pub(crate) fn count_marked(marks: &[u8]) -> usize
    requires { length marks.now ≤ text_limit }
    ensures { result ≡ sum marks.now }
{
    marks.iter().map(|mark| *mark as usize).sum()
}

// Copies the n marked words to the start of `out`. A word that is not marked is written too, where the next marked one then
// goes: that costs less than a branch that cannot be foreseen. Behind the last marked one there may be no place, so the loop ends there.
pub(crate) fn copy_marked(words: &[u32], marks: &[u8], n: usize, out: &mut [u32])
    requires words_len { length words.now ≡ length marks.now }
    requires by_index { (k : ℕ) → get_or marks.now k 0 ≤ 1 }
    requires n_value { (n ≡ sum marks.now) × (n ≤ length out.old) }
    ensures { out.new ≡ over (marked_words marks.now words.now) out.old }
{
    let mut i = 0;
    let mut at = 0;
    while at < n {
        out[at] = words[i];
        at += marks[i] as usize;
        i += 1;
    }
}
