// Starts, m at the first row of each block: what leaving a column does to them.
ghost use Rattle.std.specs.Prelude.{◌≡◌};
ghost use Rattle.session_cells.specs.Leaving.{left_starts};

use crate::score::lowered;
use session_words::BLOCK_ROWS;

// Leaves a column: m falls by one in the rows from `back`, that of its hit, up to its own.
pub fn leave(starts: &mut [u32], back: usize, column: usize)
    ensures { starts.new ≡ left_starts back column 0 starts.old }
{
    let to = starts.len().min(column / BLOCK_ROWS + 1);
    for b in back.div_ceil(BLOCK_ROWS)..to {
        starts[b] = lowered(starts[b], 1);
    }
}
