// The lines of one session's mappings, as many at a time as a lent buffer holds.
ghost use Rattle.std.specs.Prelude.{◌≡◌};
ghost use Rattle.list_lines.specs.Pieces.{Fills};

use crate::listing::Listing;
use crate::mapping::{LINE_ROOM, Mapping, put_mapping};
use crate::words::cells_left;
use base::{HIT_LIMIT, WORD_LIMIT};
use mapper::answer::Stepped;
use mapper::session::step;

// No run has more mappings: two sessions have so many cells.
const FOUND_LIMIT: u32 = (HIT_LIMIT * (HIT_LIMIT + 1)) as u32;

// More cells than any session has.
const BUDGET: u32 = (WORD_LIMIT - 1) as u32;

// The bytes of a piece, the mappings found up to its end, and the cells that remain and one more, or 0 where nothing can follow.
#[derive(Clone, Copy, Debug, PartialEq, Eq)]
pub struct Filled {
    pub written: usize,
    pub found: u32,
    pub left: u32,
}

// Nothing can follow.
fn stopped(written: usize, found: u32) -> Filled
    ensures { (result.written ≡ written) × (result.found ≡ found) × (result.left ≡ 0) }
{
    Filled {
        written,
        found,
        left: 0,
    }
}

// Writes the lines of the mappings from the session's place on, as many as surely fit. Where not even one surely fits, nothing is written and
// as much is left as before: a caller that goes on lends more.
pub fn fill_lines(work: &mut [u32], listing: Listing, found: u32, out: &mut [u8]) -> Filled
    ensures { Fills work.old listing.entry.positions.now listing.entry.k listing.entry.size listing.entry.strand found out.old result
        work.new out.new }
{
    let mut at = 0;
    let mut count = found;
    while LINE_ROOM <= out.len() - at {
        match step(work, BUDGET) {
            Ok(Stepped::Found { a, b, score, m, .. }) => {
                if FOUND_LIMIT <= count {
                    return stopped(at, count);
                }
                let mapping = Mapping { score, a, b, m };
                let next = put_mapping(out, at, listing, mapping);
                if next <= at {
                    return stopped(at, count);
                }
                at = next;
                count += 1;
            }
            Ok(Stepped::Finished(_)) => {
                return Filled {
                    written: at,
                    found: count,
                    left: 1,
                };
            }
            Ok(Stepped::Spent(_)) => return stopped(at, count),
            Err(_) => return stopped(at, count),
        }
    }
    Filled {
        written: at,
        found: count,
        left: cells_left(work),
    }
}
