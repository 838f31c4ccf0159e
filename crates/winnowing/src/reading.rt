// Reads the letters of a run: those in front of its first k-mer's last one, and its k-mers with their ranks.
ghost use Rattle.std.specs.Prelude.{◌+◌, ◌≤◌, ◌≡◌, length};
ghost use Rattle.kmers.specs.Places.{run_end};
ghost use Rattle.winnowing.specs.Scan.{InBlock, Begun, Scanned, Filled, ReadAbove};

use crate::blocks::{Block, RANKS, slot};
use crate::codes::{next_code, rank};
use crate::measures::Measures;

// A position, and the code in hand there.
#[derive(Clone, Copy)]
pub(crate) struct Reached {
    pub(crate) at: usize,
    pub(crate) code: u32,
}

// Reads the letters in front of the last one of a run's first k-mer.
pub(crate) fn first_letters(block: &Block, from: usize, measures: Measures) -> Reached
    requires in_letters { from ≤ length block.now.letters.now }
    requires in_block { InBlock block.now.base from (from + measures.last) }
    ensures { Begun block.now.letters.now from measures.last result.at result.code }
{
    let base = block.base;
    let to = from + measures.last;
    let mut code: u32 = 0;
    for at in from..to {
        let Some(digit) = block.digit_at(base, at) else {
            return Reached { at, code };
        };
        code = code * 4 + digit as u32;
    }
    Reached { at: to, code }
}

// Reads the k-mers of a run's first window.
pub(crate) fn first_window(
    block: &Block,
    ranks: &mut [u32; RANKS],
    begun: Reached,
    measures: Measures,
) -> Reached
    requires in_letters { begun.at ≤ length block.now.letters.now }
    requires in_block { InBlock block.now.base begun.at (begun.at + measures.last + measures.w) }
    requires in_run { begun.at + measures.last ≤ run_end block.now.letters.now begun.at }
    requires scanned { Scanned measures.last block.now.base block.now.letters.now ranks.old begun.at begun.at begun.code }
    ensures { Filled measures.last block.now.base measures.w block.now.letters.now ranks.new begun.at result.at result.code }
{
    let base = block.base;
    let last = measures.last;
    let to = begun.at + measures.w;
    let mut code = begun.code;
    for at in begun.at..to {
        let Some(digit) = block.digit_at(base, at + last) else {
            return Reached { at, code };
        };
        code = next_code(code, digit, last);
        ranks[slot(at, last, base)] = rank(code);
    }
    Reached { at: to, code }
}

// Reads k-mers as long as their ranks are above `low`, up to position `stop`, and answers with the rank that is not, if there is one.
// The caller has `base` at hand: many ranks may be not above `low`, and it would be read anew from the block at each.
pub(crate) fn read_above(
    block: &Block,
    base: usize,
    ranks: &mut [u32; RANKS],
    reached: Reached,
    measures: Measures,
    stop: usize,
    low: u32,
) -> (Reached, Option<u32>)
    requires begins { base ≡ block.now.base }
    requires in_letters { reached.at ≤ length block.now.letters.now }
    requires in_block { InBlock block.now.base (reached.at + measures.last) (stop + measures.last) }
    requires in_run { (reached.at ≤ stop) × (reached.at + measures.last ≤ run_end block.now.letters.now reached.at) }
    requires scanned { Scanned measures.last block.now.base block.now.letters.now ranks.old reached.at reached.at reached.code }
    ensures { ReadAbove measures.last block.now.base block.now.letters.now ranks.old ranks.new low reached.at reached.code stop
        result.0.at result.0.code result.1 }
{
    let last = measures.last;
    let mut code = reached.code;
    for at in reached.at..stop {
        let Some(digit) = block.digit_at(base, at + last) else {
            return (Reached { at, code }, None);
        };
        code = next_code(code, digit, last);
        let found = rank(code);
        ranks[slot(at, last, base)] = found;
        if found <= low {
            return (Reached { at, code }, Some(found));
        }
    }
    (Reached { at: stop, code }, None)
}
