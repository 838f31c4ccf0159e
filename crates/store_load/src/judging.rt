// Judging the words of a store, and reading the entries of a good one.
ghost use Rattle.std.specs.Prelude.{◌≡◌, suc, ◌≤◌, ◌<◌, length, drop, get_or};
ghost use Rattle.base.specs.Replies.{over};
ghost use Rattle.base.specs.Limits.{k_limit};
ghost use Rattle.base.specs.Refusals.{reply_of};
ghost use Rattle.kmers.specs.Kmers.{codes as codes_of, positions as positions_of};
ghost use Rattle.store.specs.Load.{good, last_word, judge_from, judge, entries_of};
ghost use Rattle.store_load.specs.Counted.{counted};

use base::refusal::Refusal;
use store::words::{content, header_k, is_code_word, is_end_word, is_header, is_position_word};

// The word with the number of entries at `index`, where n entries stood before it: n, or the index of the first bad word.
#[tactic(auto, unfolding(store::specs::Load::last_word))]
fn judge_last(words: &[u32], index: usize, n: usize) -> Result<usize, Refusal>
    requires { index < length words.now }
    ensures { reply_of result ≡ counted n (last_word index n (get_or words.now index 0) (drop (suc index) words.now)) }
{
    if content(words[index]) as usize != n {
        return Err(Refusal::BadEnd(index));
    }
    let next = index + 1;
    if next < words.len() {
        return Err(Refusal::BadEnd(next));
    }
    Ok(n)
}

// Judges the words from index 1 on, in order: the number of entries, or the index of the first bad word.
fn judge_entries(words: &[u32], k: u32) -> Result<usize, Refusal>
    requires { (1 ≤ length words.now) × (k ≤ k_limit) }
    ensures { reply_of result ≡ counted 0 (judge_from k 1 0 0 (drop 1 words.now)) }
{
    let limit = store::code_limit(k);
    let mut low = 0;
    for n in 0..words.len() / 2 {
        let index = 2 * n + 1;
        let first = words[index];
        if is_end_word(first) {
            return judge_last(words, index, n);
        }
        if !is_code_word(first, limit) {
            return Err(Refusal::BadWord(index));
        }
        let next = index + 1;
        if words.len() <= next {
            return Err(Refusal::BadEnd(next));
        }
        let second = words[next];
        if !is_position_word(second, low) {
            return Err(Refusal::BadWord(next));
        }
        low = content(second) + 1;
    }
    Err(Refusal::BadEnd(words.len()))
}

// Judges all words: the number of entries, or why they are no store.
#[tactic(auto, using(store::proofs::Judging::word_zero))]
pub(crate) fn judge(words: &[u32]) -> Result<usize, Refusal>
    ensures { reply_of result ≡ counted 0 (judge words.now) }
{
    if words.is_empty() || !is_header(words[0]) {
        return Err(Refusal::BadHeader(0));
    }
    judge_entries(words, header_k(words[0]))
}

// The n entries of a store that was judged good, to the fronts of the two buffers.
pub(crate) fn read(words: &[u32], n: usize, codes: &mut [u32], positions: &mut [u32])
    requires words_value { judge words.now ≡ good (entries_of (judge words.now)) }
    requires words_len { length (entries_of (judge words.now)) ≡ n }
    requires n_in_bounds { (n ≤ length codes.old) × (n ≤ length positions.old) }
    ensures codes_after { codes.new ≡ over (codes_of (entries_of (judge words.now))) codes.old }
    ensures positions_after { positions.new ≡ over (positions_of (entries_of (judge words.now))) positions.old }
{
    for i in 0..n {
        codes[i] = content(words[2 * i + 1]);
        positions[i] = content(words[2 * i + 2]);
    }
}
