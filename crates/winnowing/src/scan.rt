// The runs of the letters, one after the other, each block by block.
ghost use Rattle.std.specs.Prelude.{ℕ, suc, ◌+◌, ◌-◌, ◌≤◌, ◌<◌, ◌≡◌, length};
ghost use Rattle.base.specs.Limits.{k_limit, w_limit, letter_limit};
ghost use Rattle.kmers.specs.Places.{run_end};
ghost use Rattle.minimizers.specs.Sketch.{sketch};
ghost use Rattle.minimizers.specs.Places.{span_sketch};
ghost use Rattle.winnowing.specs.Winnowed.{wrote, written};
ghost use Rattle.winnowing.specs.Scan.{InBlock, InHand, HasRoom, to_pick, Standing, Picking, Passes, NextRun};

use crate::blocks::{BLOCK, Block, RANKS, carry, slot};
use crate::measures::Measures;
use crate::reading::{Reached, first_letters, first_window};
use crate::windows::{Counted, Passed, pass_kmers, pass_windows, put_lowest};
use letters::{FOREIGN, value};

// A position, and the entries found up to there.
#[derive(Clone, Copy)]
pub(crate) struct Place {
    pub(crate) at: usize,
    pub(crate) entries: usize,
}

// Passes the windows of a run to its end, the first of which has its lowest put.
pub(crate) fn all_windows(
    block: &mut Block,
    ranks: &mut [u32; RANKS],
    measures: Measures,
    reached: Passed,
    codes: &mut [u32],
    positions: &mut [u32],
) -> Place
    requires in_letters { reached.at ≤ length block.old.letters.now }
    requires in_block { InBlock block.old.base (reached.at + measures.last) (reached.at + measures.last) }
    requires full { measures.w ≤ reached.at }
    requires standing { Standing measures.last measures.room block.old.letters.now reached.at codes.old positions.old
        reached.at reached.entries }
    requires picking { Picking measures.last block.old.base measures.w block.old.letters.now ranks.old
        reached.at reached.code reached.lowest.at reached.lowest.rank }
    ensures same { block.new.letters.now ≡ block.old.letters.now }
    ensures passes { Passes measures.room block.old.letters.now reached.at reached.entries result.at block.new.base result.entries
        codes.old positions.old codes.new positions.new
        (to_pick measures.last measures.w block.old.letters.now reached.at (suc (reached.at - measures.w)) (suc reached.lowest.at)) }
{
    let last = measures.last;
    let mut s = pass_windows(block, ranks, measures, reached, codes, positions);
    while block.base + BLOCK <= s.at + last {
        block.read(s.at + last);
        carry(ranks);
        s = pass_windows(block, ranks, measures, s, codes, positions);
    }
    Place {
        at: s.at + last,
        entries: s.entries,
    }
}

// Passes the k-mers of a run to its end, where a window has one.
pub(crate) fn all_kmers(
    block: &mut Block,
    measures: Measures,
    reached: Counted,
    codes: &mut [u32],
    positions: &mut [u32],
) -> Place
    requires in_letters { reached.at ≤ length block.old.letters.now }
    requires in_block { InBlock block.old.base (reached.at + measures.last) (reached.at + measures.last) }
    requires standing { Standing measures.last measures.room block.old.letters.now reached.at codes.old positions.old
        reached.at reached.entries }
    requires in_hand { InHand measures.last block.old.letters.now reached.at reached.code }
    ensures same { block.new.letters.now ≡ block.old.letters.now }
    ensures passes { Passes measures.room block.old.letters.now reached.at reached.entries result.at block.new.base result.entries
        codes.old positions.old codes.new positions.new
        (to_pick measures.last 1 block.old.letters.now reached.at reached.at reached.at) }
{
    let last = measures.last;
    let mut s = pass_kmers(block, measures, reached, codes, positions);
    while block.base + BLOCK <= s.at + last {
        block.read(s.at + last);
        s = pass_kmers(block, measures, s, codes, positions);
    }
    Place {
        at: s.at + last,
        entries: s.entries,
    }
}

// Passes a run of which the letters in front of the first k-mer's last one are read, and puts its sketch.
pub(crate) fn run_windows(
    block: &mut Block,
    ranks: &mut [u32; RANKS],
    measures: Measures,
    begun: Counted,
    codes: &mut [u32],
    positions: &mut [u32],
) -> Place
    requires in_letters { begun.at ≤ length block.old.letters.now }
    requires in_block { InBlock block.old.base begun.at (begun.at + measures.last + measures.w) }
    requires standing { Standing measures.last measures.room block.old.letters.now begun.at codes.old positions.old
        begun.at begun.entries }
    requires in_hand { InHand measures.last block.old.letters.now begun.at begun.code }
    ensures same { block.new.letters.now ≡ block.old.letters.now }
    ensures passes { Passes measures.room block.old.letters.now begun.at begun.entries result.at block.new.base result.entries
        codes.old positions.old codes.new positions.new
        (span_sketch (suc measures.last) measures.w block.old.letters.now begun.at
        (run_end block.old.letters.now begun.at - measures.last)) }
{
    let from = begun.at;
    let last = measures.last;
    let start = Reached {
        at: from,
        code: begun.code,
    };
    let full = first_window(block, ranks, start, measures);
    let p = full.at;
    let at = p + last;
    if p <= from {
        return Place {
            at,
            entries: begun.entries,
        };
    }
    let to = slot(p, last, block.base);
    let (lowest, entries) = put_lowest(
        ranks,
        to - (p - from),
        to,
        p,
        codes,
        positions,
        measures.room,
        begun.entries,
    );
    if p < from + measures.w {
        return Place { at, entries };
    }
    let reached = Passed {
        at: p,
        code: full.code,
        lowest,
        entries,
    };
    all_windows(block, ranks, measures, reached, codes, positions)
}

// Passes the run that begins at a place, and puts its sketch behind the entries found so far.
pub(crate) fn run(
    block: &mut Block,
    ranks: &mut [u32; RANKS],
    measures: Measures,
    place: Place,
    codes: &mut [u32],
    positions: &mut [u32],
) -> Place
    requires in_letters { place.at ≤ length block.old.letters.now }
    requires begins { (block.old.base ≤ place.at) × (place.entries ≤ place.at) }
    requires has_room { HasRoom measures.room codes.old positions.old }
    ensures same { block.new.letters.now ≡ block.old.letters.now }
    ensures passes { Passes measures.room block.old.letters.now place.at place.entries result.at block.new.base result.entries
        codes.old positions.old codes.new positions.new
        (span_sketch (suc measures.last) measures.w block.old.letters.now place.at
        (run_end block.old.letters.now place.at - measures.last)) }
{
    let from = place.at;
    let last = measures.last;
    block.cover(from, from + last + measures.w);
    let begun = first_letters(block, from, measures);
    if begun.at < from + last {
        return Place {
            at: begun.at,
            entries: place.entries,
        };
    }
    let start = Counted {
        at: from,
        code: begun.code,
        entries: place.entries,
    };
    if measures.w == 1 {
        return all_kmers(block, measures, start, codes, positions);
    }
    run_windows(block, ranks, measures, start, codes, positions)
}

// The next position whose letter is one of the eight, from this one on, if there is one. What it passes are runs of no letters, in a
// loop of its own since a text may have many.
pub(crate) fn next_run(letters: &[u8], from: usize) -> Option<usize>
    requires { length letters.now ≤ letter_limit }
    ensures { NextRun letters.now from result }
{
    for at in from..letters.len() {
        if value(letters[at]) != FOREIGN {
            return Some(at);
        }
    }
    None
}

// Passes all runs, and answers how many entries their sketches have. As many as there is room for are written.
pub(crate) fn scan(
    letters: &[u8],
    k: u32,
    w: u32,
    codes: &mut [u32],
    positions: &mut [u32],
    room: usize,
) -> usize
    requires le_k { (1 ≤ k) × (k ≤ k_limit) × (1 ≤ w) × (w ≤ w_limit) × (length letters.now ≤ letter_limit) }
    requires has_room { HasRoom room codes.old positions.old }
    ensures { wrote result codes.new positions.new
        ≡ written room 0 codes.old positions.old (sketch k w letters.now) }
{
    let mut block = Block::first(letters);
    let mut ranks = [0u32; RANKS];
    let measures = Measures {
        last: k as usize - 1,
        w: w as usize,
        room,
    };
    let mut entries: usize = 0;
    // The next run is looked for at the end of a turn: at its head, the search would count up all that the run computes from its place,
    // letter by letter.
    let mut next = next_run(letters, 0);
    while let Some(at) = next {
        let end = run(
            &mut block,
            &mut ranks,
            measures,
            Place { at, entries },
            codes,
            positions,
        );
        entries = end.entries;
        next = next_run(letters, end.at + 1);
    }
    entries
}
