// The words that occur too often, each once, in order.
ghost use Rattle.std.specs.Prelude.{◌≡◌, ◌+◌, ◌≤◌, ◌<◌, length, take};
ghost use Rattle.sorting.specs.Sorting.{Sorted, sorted_words};
ghost use Rattle.marking.specs.Frequent.{Frequent, ending_in};

use crate::Deciding;
use base::{TEXT_LIMIT, copies};
use sorting::sort_through;

// Puts the word behind the n of the list, unless it is the last of them.
fn put_new(word: u32, n: usize, list: &mut [u32]) -> usize
    requires { n < length list.old }
    ensures bound { result ≤ n + 1 }
    ensures list_after { take result list.new ≡ ending_in word (take n list.old) }
{
    if 0 < n && list[n - 1] == word {
        return n;
    }
    list[n] = word;
    n + 1
}

// Lists the words that occur more than `limit` times among words in order: such a word stands `limit` places before itself.
fn list_runs(sorted: &[u32], limit: u32, list: &mut [u32]) -> usize
    requires in_order { Sorted sorted.now }
    requires room { length sorted.now ≤ length list.old }
    ensures bound { result ≤ length sorted.now }
    ensures listed { Frequent sorted.now limit (take result list.new) }
{
    let back = limit as usize;
    let mut n = 0;
    for i in back..sorted.len() {
        if sorted[i - back] == sorted[i] {
            n = put_new(sorted[i], n, list);
        }
    }
    n
}

// Lists such words among the first of the list, as many as there is room to sort.
fn list_by_sorting(limit: u32, sorted: &mut [u32], list: &mut [u32]) -> usize
    requires { length sorted.old ≤ length list.old }
    ensures bound { result ≤ length sorted.old }
    ensures listed { Frequent (take (length sorted.old) list.old) limit (take result list.new) }
{
    let n = sorted.len();
    sort_through(&mut list[..n], sorted);
    list_runs(sorted, limit, list)
}

impl Deciding<'_> {
    // Words that come in order, as equal ones do, need no sort; of others only those that the filter suspects are sorted.
    pub(crate) fn list_frequent(self, list: &mut [u32]) -> usize
        requires { length self.words.now ≤ length list.old }
        ensures bound { result ≤ length self.entry.words.now }
        ensures listed { Frequent self.entry.words.now self.entry.limit (take result list.new) }
    {
        if self.words.is_sorted() {
            return list_runs(self.words, self.limit, list);
        }
        let n = self.suspects(list);
        let mut sorted: [u32; TEXT_LIMIT] = copies(0);
        list_by_sorting(self.limit, &mut sorted[..n], list)
    }
}
