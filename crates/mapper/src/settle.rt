// How the place of a session stands in its work words, and where it settles behind what was passed of a column.
ghost use Rattle.std.specs.Prelude.{◌≡◌, ◌≤◌, ◌<◌, get_or};
ghost use Rattle.base.specs.Limits.{hit_limit, word_limit};
ghost use Rattle.session_words.specs.Layout.{m_at, highest_at};
ghost use Rattle.mapper.specs.Spots.{spot};
ghost use Rattle.mapper.specs.Walking.{place_of, left_words, settled as settled_place, settled_words, saved};

use crate::place::Place;
use base::{WORD_LIMIT, WORK_WORDS};
use session_cells::cells::Passed;
use session_cells::starts::leave;
use session_words::{BACK, COLUMNS, HIGHEST, PART_END, PASSED, ROW, SHARED, STARTS, THRESHOLD};

// The place at this row of the last of these columns, with what the words hold of it.
pub fn place_at(work: &[u32; WORK_WORDS], columns: usize, row: usize) -> Place
    requires { (columns ≤ hit_limit) × (row ≤ columns) }
    ensures { spot result ≡ place_of columns row (get_or work.now m_at 0) (get_or work.now highest_at 0) }
{
    Place {
        columns,
        row,
        m: work[SHARED],
        highest: work[HIGHEST],
    }
}

// Leaves the last of these columns.
#[tactic(auto, unfolding(crate::specs::Walking::left_words, crate::specs::Walking::with_middle, crate::specs::Walking::middle))]
fn leave_column(work: &mut [u32; WORK_WORDS], columns: usize)
    requires { (columns ≤ hit_limit) × (1 ≤ columns) }
    ensures { work.new ≡ left_words work.old columns }
{
    let back = work[BACK + columns - 1] as usize;
    leave(&mut work[STARTS..PART_END], back, columns - 1);
}

// The place behind what was passed of the last column of a place: in that column, or at the top of the next, where it is passed and left.
pub fn settle(work: &mut [u32; WORK_WORDS], last: Place, p: Passed) -> Place
    requires { 1 ≤ last.columns }
    ensures value { spot result ≡ settled_place work.old last.columns p }
    ensures work_after { work.new ≡ settled_words work.old last.columns p }
{
    let columns = last.columns;
    if p.row < columns {
        return Place {
            columns,
            row: p.row,
            m: p.m,
            highest: p.highest,
        };
    }
    leave_column(work, columns);
    Place {
        columns: columns - 1,
        row: 0,
        m: work[STARTS],
        highest: work[THRESHOLD],
    }
}

// Writes the place, and adds the cells passed to those passed since start.
#[tactic(auto, unfolding(crate::specs::Walking::saved))]
pub fn save(work: &mut [u32; WORK_WORDS], place: Place, cells: usize)
    requires { cells < word_limit }
    ensures { work.new ≡ saved work.old (spot place) cells }
{
    let total = (work[PASSED] as u64 + cells as u64) % WORD_LIMIT;
    work[PASSED] = total as u32;
    work[COLUMNS] = place.columns as u32;
    work[ROW] = place.row as u32;
    work[SHARED] = place.m;
    work[HIGHEST] = place.highest;
}
