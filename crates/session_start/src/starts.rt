// m at the first row of each block of rows, in the last column.
ghost use Rattle.std.specs.Prelude.{◌≡◌, List, ℕ, ◌≤◌, length};
ghost use Rattle.std.proofs.lemmas.List.Edits.{sets};
ghost use Rattle.base.specs.Limits.{hit_limit};
ghost use Rattle.session_words.specs.Layout.{block_count, starts_from};
ghost use Rattle.session_start.specs.Tables.{start_of};
ghost use Rattle.session_start.specs.Noting.{HoldsReach, starts};

use base::WORK_WORDS;
use session_words::{BLOCK_ROWS, REACH, STARTS};

// How many blocks so many rows make.
pub(crate) fn block_count(rows: usize) -> usize
    requires { rows ≤ hit_limit }
    ensures { result ≡ block_count rows }
{
    rows.div_ceil(BLOCK_ROWS)
}

// Starts of h hits in their place among the work words, from reach of each in its own place; it answers m of the first cell, or 0 where
// there is none. Row by row from the last one up: m grows by one with each row that is reasonable as a left end of the last column. Each
// row writes the word of its block, so that the block's first row is the last to write it.
pub(crate) fn put_starts(h: usize, work: &mut [u32; WORK_WORDS]) -> u32
    requires { h ≤ hit_limit }
    ensures { (p g : List ℕ) → length g ≡ h → HoldsReach p g work.old
        → (result ≡ start_of p g h 0) × (work.new ≡ sets work.old starts_from (starts p g)) }
{
    let mut m: u32 = 0;
    for i in (0..h).rev() {
        m += (work[REACH + i] == h as u32) as u32;
        work[STARTS + i / BLOCK_ROWS] = m;
    }
    work[STARTS + block_count(h)] = 0;
    m
}
