// Searching words in order: where the words from a given one on begin.
ghost use Rattle.std.specs.Prelude.{◌≡◌, ◌≤◌, ltb};
ghost use Rattle.base.specs.Lists.{bit};
ghost use Rattle.sorting.specs.Searching.{searched};

use base::PATTERN_LIMIT;

// A power of two above every word, so that b + CARRY - 1 - a reaches it where a < b, and only there.
const CARRY: u64 = 1 << 40;

// By arithmetic that the compiler does not take for a test: a test would become a branch where it is used.
fn one_if_below(a: u32, b: u32) -> usize
    ensures value { result ≡ bit (ltb a b) }
    ensures bound { result ≤ 1 }
{
    ((b as u64 + (CARRY - 1) - a as u64) / CARRY) as usize
}

// Each step halves what is left whatever the words are, so no branch is mispredicted.
fn bisect(words: &[u32], x: u32) -> usize
    ensures { result ≡ searched words.now x }
{
    let mut at = 0;
    let mut left = words.len();
    while 0 < left {
        let half = (left + 1) / 2;
        at += half * one_if_below(words[at + half - 1], x);
        left -= half;
    }
    at
}

// The number of words below x, where the words are in order. The steps through as many words as a pattern may have are known
// beforehand, and the compiler lays them out one after the other: a full table is searched in half the time.
pub fn lower_bound(words: &[u32], x: u32) -> usize
    ensures { result ≡ searched words.now x }
{
    if words.len() == PATTERN_LIMIT {
        return bisect(&words[..PATTERN_LIMIT], x);
    }
    bisect(words, x)
}
