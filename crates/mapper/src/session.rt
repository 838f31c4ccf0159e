// A step of a session: what is refused, and the walk from the place in the work words.
ghost use Rattle.std.specs.Prelude.{◌≡◌, ◌+◌, ◌<◌, ◌&&◌, eqb, ltb};
ghost use Rattle.base.specs.Limits.{word_limit};
ghost use Rattle.mapper.specs.Step.{bad_scoring, bad_words};
ghost use Rattle.mapper.specs.Promise.{StepPromise};

use crate::answer::Stepped;
use crate::settle::place_at;
use crate::small::SmallTerms;
use crate::terms::terms_of;
use crate::walk::{walk, walk_one};
use base::refusal::Refusal;
use base::{HIT_LIMIT, WORK_WORDS};
use session_start::judging::{bad_fraction, bad_weights};
use session_words::{COLUMNS, HITS, KIND, PASSED, ROW, U, V};

// A kind of score that is neither 0, linear, nor 1, Jaccard; or two numbers of it that start refuses.
fn bad_scoring(kind: u32, first: u32, second: u32) -> bool
    ensures { result ≡ bad_scoring kind first second }
{
    match kind {
        0 => bad_weights(first, second),
        1 => bad_fraction(first, second),
        _ => true,
    }
}

// Words 0 to 4 hold h over 2,048, a kind of score and two numbers of it that no start accepts, or more cells passed than h(h + 1)/2.
#[tactic(auto, unfolding(crate::specs::Step::bad_words, mappings::specs::Cells::cell_count))]
fn bad_words(work: &[u32; WORK_WORDS]) -> bool
    ensures { result ≡ bad_words work.now }
{
    let h = work[HITS] as usize;
    HIT_LIMIT < h
        || bad_scoring(work[KIND], work[U], work[V])
        || h * (h + 1) / 2 < work[PASSED] as usize
}

// The budget is one cell, and the column of that cell has a further row.
fn one_inside(budget: u32, row: usize, columns: usize) -> bool
    requires { row < word_limit }
    ensures { result ≡ (ltb (row + 1) columns && eqb budget 1) }
{
    row + 1 < columns && budget == 1
}

// Passes cells until one is final, none remains or the budget's are passed. Words that no start and no step made, and whose place
// lies in no column, get spent with no cell.
pub fn step(work: &mut [u32], budget: u32) -> Result<Stepped, Refusal>
    ensures { StepPromise work.old budget result work.new }
{
    let Some(words) = work.first_chunk_mut::<WORK_WORDS>() else {
        return Err(Refusal::TooFewWords);
    };
    if bad_words(words) {
        return Err(Refusal::BadWords);
    }
    let columns = words[COLUMNS] as usize;
    if (words[HITS] as usize) < columns {
        return Ok(Stepped::Spent(0));
    }
    let small = SmallTerms {
        terms: terms_of(words),
    };
    let row = words[ROW] as usize;
    if one_inside(budget, row, columns) {
        let cell = place_at(words, columns, row);
        return Ok(walk_one(words, small, cell));
    }
    if columns < row {
        return Ok(Stepped::Spent(0));
    }
    let place = place_at(words, columns, row);
    Ok(walk(words, small, place, budget as usize))
}
