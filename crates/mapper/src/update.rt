// The update of a column in the work words: cells of it are passed in the tables that it is lent.
ghost use Rattle.std.specs.Prelude.{◌≡◌, ◌-◌, ◌≤◌, ◌<◌};
ghost use Rattle.base.specs.Limits.{hit_limit};
ghost use Rattle.mapper.specs.Walking.{line_of, column_update, cell_update, with_part};

use crate::place::Place;
use crate::rates::rates_of;
use crate::small::SmallTerms;
use base::{WORD_LIMIT, WORK_WORDS, smaller};
use session_cells::cells::{Line, Passed, pass, pass_one};
use session_words::{BACK, INDEX, PART_END};

// What the cells of column j share.
#[tactic(auto, unfolding(crate::specs::Walking::line_of))]
fn line_of(work: &[u32; WORK_WORDS], small: SmallTerms, j: usize) -> Line
    requires { j < hit_limit }
    ensures { result ≡ line_of work.now small.terms j }
{
    let rates = rates_of(small);
    let lost = rates.loss as u64 * (work[INDEX + j] as u64 + 1 + small.terms.size as u64);
    Line {
        column: j as u32,
        gain: rates.gain,
        v: rates.loss,
        base: ((rates.lift - lost) % WORD_LIMIT) as u32,
        back: work[BACK + j] as usize,
        fractions: rates.fractions,
    }
}

// Passes cells of the last of the place's columns from its row on: at most `left` of them, and up to the first candidate.
pub fn update(work: &mut [u32; WORK_WORDS], small: SmallTerms, place: Place, left: usize) -> Passed
    requires { 1 ≤ place.columns }
    ensures value { result ≡ (column_update small.terms (place.columns - 1) place.row place.m place.highest left work.old).answer }
    ensures work_after { work.new ≡ with_part work.old
        (column_update small.terms (place.columns - 1) place.row place.m place.highest left work.old).part }
{
    let line = line_of(work, small, place.columns - 1);
    let row = place.row;
    let to = row + smaller(left, place.columns - row);
    pass(
        &mut work[INDEX..PART_END],
        line,
        row,
        to,
        place.m,
        place.highest,
    )
}

// The same of one cell.
pub fn update_one(work: &mut [u32; WORK_WORDS], small: SmallTerms, place: Place) -> Passed
    requires { place.row < place.columns }
    ensures value { result ≡ (cell_update small.terms (place.columns - 1) place.row place.m place.highest work.old).answer }
    ensures work_after { work.new ≡ with_part work.old
        (cell_update small.terms (place.columns - 1) place.row place.m place.highest work.old).part }
{
    let line = line_of(work, small, place.columns - 1);
    pass_one(
        &mut work[INDEX..PART_END],
        line,
        place.row,
        place.m,
        place.highest,
    )
}
