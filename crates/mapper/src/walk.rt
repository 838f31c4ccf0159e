// Walking along the columns from a place, until a candidate, the budget's end or the last cell.
ghost use Rattle.std.specs.Prelude.{◌≡◌, ◌+◌, ◌≤◌, ◌<◌};
ghost use Rattle.base.specs.Limits.{word_limit};
ghost use Rattle.mapper.specs.Spots.{spot};
ghost use Rattle.mapper.specs.Walking.{found_walk, walk_on, one_walk};

use crate::answer::Stepped;
use crate::decide::{Candidate, decided};
use crate::place::Place;
use crate::settle::{save, settle};
use crate::small::SmallTerms;
use crate::terms::Terms;
use crate::update::{update, update_one};
use base::WORK_WORDS;
use session_cells::cells::Passed;
use session_words::INDEX;

// The cell passed last, of the last column of a place, is a candidate: it is decided, with the place behind it.
fn found(
    work: &mut [u32; WORK_WORDS],
    terms: Terms,
    last: Place,
    p: Passed,
    place: Place,
    cells: usize,
) -> Stepped
    requires { (1 ≤ last.columns) × (1 ≤ p.row) × (p.row ≤ last.columns) × (cells < word_limit) }
    ensures value { result ≡ (found_walk terms work.old last.columns p (spot place) cells).answer }
    ensures work_after { work.new ≡ (found_walk terms work.old last.columns p (spot place) cells).words }
{
    let at = Candidate {
        a: work[INDEX + p.row - 1],
        b: work[INDEX + last.columns - 1],
        m: p.m.wrapping_add(1),
        cells: cells as u32,
    };
    save(work, place, cells);
    decided(terms, at)
}

// The cells from this place on, at most `budget` of them.
pub fn walk(work: &mut [u32; WORK_WORDS], small: SmallTerms, start: Place, budget: usize) -> Stepped
    requires { budget < word_limit }
    ensures value { result ≡ (walk_on small.terms budget start.columns start.row start.m start.highest budget work.old).answer }
    ensures work_after { work.new ≡ (walk_on small.terms budget start.columns start.row start.m start.highest budget work.old).words }
{
    let mut place = start;
    let mut left = budget;
    while 0 < place.columns {
        if left == 0 {
            save(work, place, budget);
            return Stepped::Spent(budget as u32);
        }
        let last = place;
        let p = update(work, small, last, left);
        left -= p.row - last.row;
        place = settle(work, last, p);
        if p.found {
            return found(work, small.terms, last, p, place, budget - left);
        }
    }
    save(work, place, budget - left);
    Stepped::Finished((budget - left) as u32)
}

// The walk of one cell in a column that has a further row.
pub fn walk_one(work: &mut [u32; WORK_WORDS], small: SmallTerms, start: Place) -> Stepped
    requires { start.row + 1 < start.columns }
    ensures value { result ≡ (one_walk small.terms start.columns start.row start.m start.highest work.old).answer }
    ensures work_after { work.new ≡ (one_walk small.terms start.columns start.row start.m start.highest work.old).words }
{
    let p = update_one(work, small, start);
    let place = Place {
        columns: start.columns,
        row: p.row,
        m: p.m,
        highest: p.highest,
    };
    if p.found {
        return found(work, small.terms, start, p, place, 1);
    }
    save(work, place, 1);
    Stepped::Spent(1)
}
