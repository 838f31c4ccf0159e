// What the work words of a session tell about its cells: how many remain, and how many are passed.
ghost use Rattle.std.specs.Prelude.{◌≡◌, get_or};
ghost use Rattle.list_lines.specs.Pieces.{cells_left};

use base::{HIT_LIMIT, WORK_WORDS};
use session_words::{HITS, PASSED};

// The cells that remain and one more; 0 for words that no session has.
#[tactic(auto, unfolding(crate::specs::Pieces::cells_left, mappings::specs::Cells::cell_count))]
pub fn cells_left(work: &[u32]) -> u32
    ensures { result ≡ cells_left work.now }
{
    if work.len() < WORK_WORDS {
        return 0;
    }
    let h = work[HITS] as usize;
    if HIT_LIMIT < h {
        return 0;
    }
    let cells = h * (h + 1) / 2;
    let passed = work[PASSED] as usize;
    if cells < passed {
        return 0;
    }
    (cells - passed + 1) as u32
}

// The cells passed since start.
pub fn cells_passed(work: &[u32]) -> u32
    ensures { result ≡ get_or work.now 3 0 }
{
    if work.len() <= PASSED {
        return 0;
    }
    work[PASSED]
}
