// Passing cells row by row. A cell's score word enters its row as a record where it is greater than all that the rows up to it have seen,
// the threshold included; where it is at least that and its ends are reasonable, the cell is a candidate.
ghost use Rattle.std.specs.Prelude.{◌≡◌, ◌-◌, ◌≤◌, ◌<◌, ◌&&◌, eqb, leb};
ghost use Rattle.base.specs.Limits.{hit_limit};
ghost use Rattle.session_cells.specs.Passing.{entered, pass_rows};
ghost use Rattle.session_cells.specs.Pausing.{quiet_rows};

use crate::cells::{Line, Next, Passed};
use crate::part::{BEST_AT, Part, REACH_AT, TOPS_AT};
use crate::score::lowered;
use crate::seen::Seen;
use session_words::BLOCK_ROWS;

// Where cells were passed up to one that matters, whose score word is at least what the rows up to it have seen: the row of the next cell
// and its m, what the rows before that one have seen but for the last cell, and of the last cell its score word and its left end's
// reach, both 0 where no cell matters.
#[derive(Clone, Copy)]
pub(crate) struct Paused {
    pub row: usize,
    pub m: u32,
    pub highest: u32,
    pub score: u32,
    pub reach: u32,
}

// Enters this score word in its row, where it is greater than what the rows up to there have seen.
#[tactic(auto, unfolding(crate::specs::Passing::entered))]
fn enter<S: Seen>(part: &mut Part, row: usize, score: u32, seen: u32)
    requires { row < hit_limit }
    ensures { part.new ≡ entered S.fractions part.old row score seen }
{
    if S::at_most(score, seen) {
        return;
    }
    let block = row / BLOCK_ROWS;
    let top = S::greater(score, part[TOPS_AT + block]);
    part[BEST_AT + row] = score;
    part[TOPS_AT + block] = top;
}

// Both ends of a cell of this row are reasonable: `one` says it of the left end, and the right end is so from the row `back` on.
fn is_reasonable(one: u32, back: usize, row: usize) -> bool
    ensures { result ≡ (eqb one 1 && leb back row) }
{
    one == 1 && back <= row
}

// Passes the cells from `next` on, of the rows below `to`, up to the first that matters. It only reads: with the recording inside, the
// loop would be slower.
fn quiet_rows<S: Seen>(part: &Part, line: Line, to: usize, next: Next) -> Paused
    requires { (next.row ≤ to) × (to ≤ hit_limit) × (line.fractions ≡ S.fractions) }
    ensures { result ≡ quiet_rows line (to - next.row) next.row next.m next.highest part.now }
{
    let mut m = next.m;
    let mut seen = S::of(next.highest);
    for i in next.row..to {
        let x = part[i];
        let reach = part[REACH_AT + i];
        seen = seen.raised(part[BEST_AT + i]);
        if seen.is_reached(line, m, x) {
            return Paused {
                row: i + 1,
                m: lowered(m, line.reaches(reach)),
                highest: seen.word(),
                score: line.score_word(m, x),
                reach,
            };
        }
        m = lowered(m, line.reaches(reach));
    }
    Paused {
        row: to,
        m,
        highest: seen.word(),
        score: 0,
        reach: 0,
    }
}

// Passes the cells from `first` on, of the rows below `to`, up to the first candidate. Where no cell matters, the pause's score word 0
// enters nothing and its reach 0 is not reasonable.
pub(crate) fn pass_rows<S: Seen>(part: &mut Part, line: Line, to: usize, first: Next) -> Passed
    requires { (first.row ≤ to) × (to ≤ hit_limit) × (line.fractions ≡ S.fractions) }
    ensures value { result ≡ (pass_rows line (to - first.row) first.row first.m first.highest part.old).answer }
    ensures part_after { part.new ≡ (pass_rows line (to - first.row) first.row first.m first.highest part.old).part }
{
    let mut next = first;
    while next.row < to {
        let q = quiet_rows::<S>(part, line, to, next);
        enter::<S>(part, q.row - 1, q.score, q.highest);
        next = Next {
            row: q.row,
            m: q.m,
            highest: S::greater(q.highest, q.score),
        };
        if is_reasonable(line.reaches(q.reach), line.back, q.row - 1) {
            return next.passed(true);
        }
    }
    next.passed(false)
}

// Passes the one cell of this row. No loop: steps of one cell pass here.
pub(crate) fn pass_row<S: Seen>(part: &mut Part, line: Line, next: Next) -> Passed
    requires { (next.row < hit_limit) × (line.fractions ≡ S.fractions) }
    ensures value { result ≡ (pass_rows line 1 next.row next.m next.highest part.old).answer }
    ensures part_after { part.new ≡ (pass_rows line 1 next.row next.m next.highest part.old).part }
{
    let row = next.row;
    let x = part[row];
    let one = line.reaches(part[REACH_AT + row]);
    let seen = S::greater(next.highest, part[BEST_AT + row]);
    let m = lowered(next.m, one);
    if !S::of(seen).is_reached(line, next.m, x) {
        return Next {
            row: row + 1,
            m,
            highest: seen,
        }
        .passed(false);
    }
    let score = line.score_word(next.m, x);
    enter::<S>(part, row, score, seen);
    let highest = S::greater(seen, score);
    Next {
        row: row + 1,
        m,
        highest,
    }
    .passed(is_reasonable(one, line.back, row))
}
