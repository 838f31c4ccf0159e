// Windows of k-mers: the k-mers that the windows of a block pick.
ghost use Rattle.std.specs.Prelude.{suc, ◌+◌, ◌-◌, ◌≤◌, ◌<◌, length, get_or};
ghost use Rattle.base.specs.Limits.{letter_limit};
ghost use Rattle.minimizers.specs.Places.{IsLowest};
ghost use Rattle.winnowing.specs.Blocks.{ranks_size};
ghost use Rattle.winnowing.specs.Scan.{InBlock, InHand, HasRoom, IsPut, PutsLowest, SameEnd, to_pick};
ghost use Rattle.winnowing.specs.Scan.{Standing, Picking, PassesBlock};

use crate::blocks::{BLOCK, Block, RANKS, slot};
use crate::codes::{next_code, unrank};
use crate::measures::Measures;
use crate::reading::{Reached, read_above};

// A position, the code in hand there, and the entries found up to there.
#[derive(Clone, Copy)]
pub(crate) struct Counted {
    pub(crate) at: usize,
    pub(crate) code: u32,
    pub(crate) entries: usize,
}

// The lowest k-mer of a window, which it picks: its position, and its rank.
#[derive(Clone, Copy)]
pub(crate) struct Picked {
    pub(crate) at: usize,
    pub(crate) rank: u32,
}

// A position, the code in hand there, the lowest of the window that ends there, and the entries found up to there.
#[derive(Clone, Copy)]
pub(crate) struct Passed {
    pub(crate) at: usize,
    pub(crate) code: u32,
    pub(crate) lowest: Picked,
    pub(crate) entries: usize,
}

// One more entry: counted, and written where there is room.
#[tactic(auto, unfolding(crate::specs::Winnowed::placed))]
pub(crate) fn put(
    codes: &mut [u32],
    positions: &mut [u32],
    room: usize,
    n: usize,
    code: u32,
    position: usize,
) -> usize
    requires { HasRoom room codes.old positions.old × (n < letter_limit) × (position < letter_limit) }
    ensures { IsPut room n code position result codes.old positions.old codes.new positions.new }
{
    if room <= n {
        return n + 1;
    }
    codes[n] = code;
    positions[n] = position as u32;
    n + 1
}

// The slot of the lowest rank, the rightmost of equal ones, among neighbouring slots.
pub(crate) fn lowest(ranks: &[u32; RANKS], from: usize, to: usize) -> usize
    requires { (from < to) × (to ≤ ranks_size) }
    ensures { IsLowest (λ i. get_or ranks.now i 0) from to result }
{
    let mut low_at = from;
    let mut low = ranks[from];
    for i in from + 1..to {
        let found = ranks[i];
        // An equal rank further right is lower.
        if found <= low {
            low_at = i;
            low = found;
        }
    }
    low_at
}

// Searches the slots from `from` to `to`, those of k-mers in front of position p, and puts the lowest. Answers with it, and with the
// number of entries.
pub(crate) fn put_lowest(
    ranks: &[u32; RANKS],
    from: usize,
    to: usize,
    p: usize,
    codes: &mut [u32],
    positions: &mut [u32],
    room: usize,
    n: usize,
) -> (Picked, usize)
    requires slots { (from < to) × (to ≤ ranks_size) × (to ≤ from + p) }
    requires has_room { HasRoom room codes.old positions.old × (n < letter_limit) × (p ≤ letter_limit) }
    ensures { PutsLowest room ranks.now from to p n result.0.at result.0.rank result.1
        codes.old positions.old codes.new positions.new }
{
    let found = lowest(ranks, from, to);
    let at = p - (to - found);
    let rank = ranks[found];
    let entries = put(codes, positions, room, n, unrank(rank), at);
    (Picked { at, rank }, entries)
}

// Passes the windows that end in a block, the first of which has its lowest put, and puts each pick that is new: a pick changes where
// a new rank is not above the lowest, or where the lowest has left the window, which is then searched.
pub(crate) fn pass_windows(
    block: &Block,
    ranks: &mut [u32; RANKS],
    measures: Measures,
    reached: Passed,
    codes: &mut [u32],
    positions: &mut [u32],
) -> Passed
    requires in_letters { reached.at ≤ length block.now.letters.now }
    requires in_block { InBlock block.now.base (reached.at + measures.last) (reached.at + measures.last) }
    requires full { measures.w ≤ reached.at }
    requires standing { Standing measures.last measures.room block.now.letters.now reached.at codes.old positions.old
        reached.at reached.entries }
    requires picking { Picking measures.last block.now.base measures.w block.now.letters.now ranks.old
        reached.at reached.code reached.lowest.at reached.lowest.rank }
    ensures passes { PassesBlock measures.last block.now.base block.now.letters.now reached.at result.at }
    ensures standing { Standing measures.last measures.room block.now.letters.now reached.at codes.new positions.new
        result.at result.entries }
    ensures picking { Picking measures.last block.now.base measures.w block.now.letters.now ranks.new
        result.at result.code result.lowest.at result.lowest.rank }
    ensures put { SameEnd measures.room result.entries codes.new positions.new
        (to_pick measures.last measures.w block.now.letters.now reached.at (suc (result.at - measures.w)) (suc result.lowest.at))
        reached.entries codes.old positions.old
        (to_pick measures.last measures.w block.now.letters.now reached.at (suc (reached.at - measures.w)) (suc reached.lowest.at)) }
{
    let base = block.base;
    let last = measures.last;
    let end = base + BLOCK - last;
    let mut p = reached.at;
    let mut code = reached.code;
    let mut low_at = reached.lowest.at;
    let mut low = reached.lowest.rank;
    let mut n = reached.entries;
    // Where the lowest leaves. It is kept from turn to turn: where rank after rank is a new lowest, it is one sum from the position.
    let mut leaves = low_at + measures.w + 1;
    loop {
        let from = Reached { at: p, code };
        let (read, found) = read_above(block, base, ranks, from, measures, leaves.min(end), low);
        p = read.at;
        code = read.code;
        if let Some(rank) = found {
            low_at = p;
            low = rank;
            n = put(codes, positions, measures.room, n, code, p);
            p += 1;
            leaves = p + measures.w;
            continue;
        }
        // The block ends, or the run.
        if p < leaves {
            let lowest = Picked {
                at: low_at,
                rank: low,
            };
            return Passed {
                at: p,
                code,
                lowest,
                entries: n,
            };
        }
        let to = slot(p, last, base);
        let (picked, entries) = put_lowest(
            ranks,
            to - measures.w,
            to,
            p,
            codes,
            positions,
            measures.room,
            n,
        );
        low_at = picked.at;
        low = picked.rank;
        n = entries;
        leaves = low_at + measures.w + 1;
    }
}

// Passes the k-mers that end in a block and puts each of them: with windows of one k-mer there are no ranks to compare.
pub(crate) fn pass_kmers(
    block: &Block,
    measures: Measures,
    reached: Counted,
    codes: &mut [u32],
    positions: &mut [u32],
) -> Counted
    requires in_letters { reached.at ≤ length block.now.letters.now }
    requires in_block { InBlock block.now.base (reached.at + measures.last) (reached.at + measures.last) }
    requires standing { Standing measures.last measures.room block.now.letters.now reached.at codes.old positions.old
        reached.at reached.entries }
    requires in_hand { InHand measures.last block.now.letters.now reached.at reached.code }
    ensures passes { PassesBlock measures.last block.now.base block.now.letters.now reached.at result.at }
    ensures standing { Standing measures.last measures.room block.now.letters.now reached.at codes.new positions.new
        result.at result.entries }
    ensures in_hand { InHand measures.last block.now.letters.now result.at result.code }
    ensures put { SameEnd measures.room result.entries codes.new positions.new
        (to_pick measures.last 1 block.now.letters.now reached.at result.at result.at)
        reached.entries codes.old positions.old
        (to_pick measures.last 1 block.now.letters.now reached.at reached.at reached.at) }
{
    let base = block.base;
    let last = measures.last;
    let end = base + BLOCK - last;
    let mut code = reached.code;
    let mut entries = reached.entries;
    for at in reached.at..end {
        let Some(digit) = block.digit_at(base, at + last) else {
            return Counted { at, code, entries };
        };
        code = next_code(code, digit, last);
        entries = put(codes, positions, measures.room, entries, code, at);
    }
    Counted {
        at: end,
        code,
        entries,
    }
}
