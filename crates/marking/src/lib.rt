// Marking the words of a list that are rare among the words that decide. It needs no heap: what counts them lies on the stack, some
// 0.8 MiB.
#![tactic(auto)]

mod frequent;
mod lookup;
mod slots;

ghost use Rattle.std.specs.Prelude.{◌≡◌, ◌≤◌, length};
ghost use Rattle.base.specs.Limits.{text_limit};
ghost use Rattle.marking.specs.Marks.{markable, marked, marks_of};

use base::{TEXT_LIMIT, copies};

// The words that decide, and how often a rare word may occur among them.
#[derive(Clone, Copy)]
struct Deciding<'a> {
    words: &'a [u32],
    limit: u32,
    ghost few: { length words.now ≤ text_limit },
}

// The words that occur too often are listed once, and each word is then looked up among them.
fn mark_words(deciding: Deciding, words: &[u32], marks: &mut [u8])
    requires { length marks.old ≡ length words.now }
    ensures { marks.new ≡ marks_of deciding.entry.words.now deciding.entry.limit words.now }
{
    let mut list: [u32; TEXT_LIMIT] = copies(0);
    let n = deciding.list_frequent(&mut list);
    lookup::mark_by_list(&list[..n], words, marks);
}

// Marks each word by 1 where it occurs at most `limit` times among those that decide, else by 0. It answers false, and changes
// nothing, where too many words decide or there are too few marks.
#[tactic(auto, unfolding(crate::specs::Marks::markable, crate::specs::Marks::marked))]
pub fn mark_rare(deciding: &[u32], words: &[u32], limit: u32, marks: &mut [u8]) -> bool
    ensures value { result ≡ markable deciding.now words.now marks.old }
    ensures marks_after { marks.new ≡ marked deciding.now limit words.now marks.old }
{
    if TEXT_LIMIT < deciding.len() {
        return false;
    }
    let n = words.len();
    if marks.len() < n {
        return false;
    }
    let deciding = Deciding {
        words: deciding,
        limit,
    };
    mark_words(deciding, words, &mut marks[..n]);
    true
}
