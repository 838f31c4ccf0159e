// Passing the cells of one column: up to a candidate, or all of some rows, by blocks of rows that are skipped where none of their cells can
// matter. A candidate passes the tests of Definition 1 by score words, which order as the scores do. It is the caller who decides, by
// the score itself.
ghost use Rattle.std.specs.Prelude.{◌≡◌, ◌↔◌, ◌+◌, ◌-◌, ◌≤◌, ◌<◌, IsTrue};
ghost use Rattle.base.specs.Limits.{hit_limit};
ghost use Rattle.session_cells.specs.Passing.{rest_end, skips, skipped, pass_rest, pass_blocks, column_pass, cell_pass};

use crate::fractions::Fraction;
use crate::numbers::Number;
use crate::part::{Part, STARTS_AT, TOPS_AT};
use crate::rows::{pass_row, pass_rows};
use crate::seen::Seen;
use base::HIT_LIMIT;
use session_words::BLOCK_ROWS;

// What the cells of a column share: its number, the factors and the sum of the score words, the row from which its hit is reasonable as
// a right end, and whether score words are fractions, else numbers.
#[derive(Clone, Copy)]
pub struct Line {
    pub column: u32,
    pub gain: u32,
    pub v: u32,
    pub base: u32,
    pub back: usize,
    pub fractions: bool,
}

// Whether the last cell passed is a candidate; and of the next one the row, m, and the greatest of the threshold and of the records in the
// rows before it.
#[derive(Clone, Copy)]
pub struct Passed {
    pub found: bool,
    pub row: usize,
    pub m: u32,
    pub highest: u32,
}

// The next cell: its row, its m, and the greatest of the threshold and of the records in the rows before it.
#[derive(Clone, Copy)]
pub(crate) struct Next {
    pub row: usize,
    pub m: u32,
    pub highest: u32,
}

impl Next {
    // What is answered before this cell, where the last one passed is a candidate, or is none.
    pub(crate) fn passed(self, found: bool) -> Passed
        ensures { result ≡ record { found = found; row = self.row; m = self.m; highest = self.highest } }
    {
        Passed {
            found,
            row: self.row,
            m: self.m,
            highest: self.highest,
        }
    }
}

// Where the rest of a block ends, from this row on: with the block, or with the column.
#[tactic(auto, unfolding(crate::specs::Passing::rest_end))]
fn rest_end(line: Line, row: usize) -> usize
    requires { row < hit_limit }
    ensures { result ≡ rest_end line row }
{
    ((row / BLOCK_ROWS + 1) * BLOCK_ROWS).min(line.column as usize + 1)
}

// The rest of the block ends within the rows that are asked for, and none of its cells can reach what the rows before it have seen: m does
// not rise with the row, and the interval gets shorter, so m of the first with the length of the last bounds them all.
fn is_skipped<S: Seen>(part: &Part, line: Line, to: usize, next: Next) -> bool
    requires { (next.row < to) × (to ≤ hit_limit) × (line.fractions ≡ S.fractions) }
    ensures { result ≡ skips line to next.row next.m next.highest part.now }
{
    let end = rest_end(line, next.row);
    end <= to && !S::of(next.highest).is_reached(line, next.m, part[end - 1])
}

// Behind the rest of the block of this row.
fn skip<S: Seen>(part: &Part, line: Line, next: Next) -> Passed
    requires { (next.row < hit_limit) × (line.fractions ≡ S.fractions) }
    ensures { result ≡ skipped line next.row next.highest part.now }
{
    let block = next.row / BLOCK_ROWS;
    let behind = Next {
        row: rest_end(line, next.row),
        m: part[STARTS_AT + block + 1],
        highest: S::greater(next.highest, part[TOPS_AT + block]),
    };
    behind.passed(false)
}

// Passes the rest of the block of this row, or its rows below `to`, up to the first candidate.
fn pass_rest<S: Seen>(part: &mut Part, line: Line, to: usize, next: Next) -> Passed
    requires { (next.row < to) × (to ≤ hit_limit) × (to ≤ line.column + 1) × (line.fractions ≡ S.fractions) }
    ensures value { result ≡ (pass_rest line to next.row next.m next.highest part.old).answer }
    ensures part_after { part.new ≡ (pass_rest line to next.row next.m next.highest part.old).part }
{
    if is_skipped::<S>(part, line, to, next) {
        return skip::<S>(part, line, next);
    }
    pass_rows::<S>(part, line, rest_end(line, next.row).min(to), next)
}

// Passes the cells from `first` on, of the rows below `to`, up to the first candidate, block by block.
fn pass_blocks<S: Seen>(part: &mut Part, line: Line, to: usize, first: Next) -> Passed
    requires { (first.row ≤ to) × (to ≤ hit_limit) × (to ≤ line.column + 1) × (line.fractions ≡ S.fractions) }
    ensures value { result ≡ (pass_blocks line (to - first.row) to first.row first.m first.highest part.old).answer }
    ensures part_after { part.new ≡ (pass_blocks line (to - first.row) to first.row first.m first.highest part.old).part }
{
    let mut next = first;
    while next.row < to {
        let passed = pass_rest::<S>(part, line, to, next);
        if passed.found {
            return passed;
        }
        next = Next {
            row: passed.row,
            m: passed.m,
            highest: passed.highest,
        };
    }
    next.passed(false)
}

// The rows from `from` up to `to` lie in the tables, and none of them is behind the line's column.
fn fits(line: Line, from: usize, to: usize) -> bool
    ensures { IsTrue result ↔ ((from ≤ to) × (to ≤ hit_limit) × (to ≤ line.column + 1)) }
{
    from <= to && to <= HIT_LIMIT && to <= line.column as usize + 1
}

// Passes the cells of rows from `from` up to `to`, or up to the first candidate. m is the first cell's, and the rows before it have seen
// `highest`. Where the rows do not fit, no cell is passed.
pub fn pass(part: &mut [u32], line: Line, from: usize, to: usize, m: u32, highest: u32) -> Passed
    ensures value { result ≡ (column_pass line from to m highest part.old).answer }
    ensures part_after { part.new ≡ (column_pass line from to m highest part.old).part }
{
    let first = Next {
        row: from,
        m,
        highest,
    };
    let Some(part) = part.as_mut_array() else {
        return first.passed(false);
    };
    if !fits(line, from, to) {
        return first.passed(false);
    }
    if line.fractions {
        pass_blocks::<Fraction>(part, line, to, first)
    } else {
        pass_blocks::<Number>(part, line, to, first)
    }
}

// Passes the one cell of this row.
pub fn pass_one(part: &mut [u32], line: Line, row: usize, m: u32, highest: u32) -> Passed
    ensures value { result ≡ (cell_pass line row m highest part.old).answer }
    ensures part_after { part.new ≡ (cell_pass line row m highest part.old).part }
{
    let next = Next { row, m, highest };
    let Some(part) = part.as_mut_array() else {
        return next.passed(false);
    };
    if !fits(line, row, row.saturating_add(1)) {
        return next.passed(false);
    }
    if line.fractions {
        pass_row::<Fraction>(part, line, next)
    } else {
        pass_row::<Number>(part, line, next)
    }
}
