// The lines of both sessions' mappings and the last line, a piece at a time.
ghost use Rattle.std.specs.Prelude.{◌≡◌, suc, ◌≤◌};
ghost use Rattle.list_lines.specs.Pieces.{cell_limit};
ghost use Rattle.list_output.specs.Filling.{left_with, Last, FillsRun};

use crate::lines::put_last;
use list_lines::filling::{Filled, fill_lines};
use list_lines::listing::Listing;
use list_lines::words::{cells_left, cells_passed};
use list_sessions::Sessions;
use strands::Strand;

// Nothing is printed, and nothing can follow.
fn nothing(found: u32) -> Filled
    ensures { (result.written ≡ 0) × (result.found ≡ found) × (result.left ≡ 0) }
{
    Filled {
        written: 0,
        found,
        left: 0,
    }
}

// A piece of one session, with what is left of the other one.
fn beside(part: Filled, other: u32) -> Filled
    requires { (part.left ≤ suc cell_limit) × (other ≤ suc cell_limit) }
    ensures { (result.written ≡ part.written) × (result.found ≡ part.found) × (result.left ≡ left_with part.left other) }
{
    if part.left == 0 {
        return part;
    }
    Filled {
        written: part.written,
        found: part.found,
        left: part.left + other,
    }
}

// The last line. Where it does not fit, as much is left as before: one for each session.
fn fill_last(found: u32, cells: u32, out: &mut [u8]) -> Filled
    ensures { Last found cells out.old result out.new }
{
    let written = put_last(out, 0, found, cells);
    Filled {
        written,
        found,
        left: if written == 0 { 2 } else { 0 },
    }
}

// Writes the next piece: lines of the forward session while cells of it remain, then lines of the other one, and at last the last line. Where not
// even one line surely fits nothing is written, and as much is left as before: a caller that goes on until nothing is left lends more.
#[tactic(auto, using(list_lines::proofs::Left::left_few))]
pub fn fill(
    forward: &mut [u32],
    reverse: &mut [u32],
    positions: &[u32],
    sessions: Sessions,
    found: u32,
    out: &mut [u8],
) -> Filled
    ensures { FillsRun forward.old reverse.old positions.now sessions.k sessions.size sessions.reverse_size found out.old result
        forward.new reverse.new out.new }
{
    let ahead = cells_left(forward);
    let behind = cells_left(reverse);
    if ahead == 0 || behind == 0 {
        return nothing(found);
    }
    if 1 < ahead {
        let listing = Listing {
            positions,
            k: sessions.k,
            size: sessions.size,
            strand: Strand::Forward,
        };
        return beside(fill_lines(forward, listing, found, out), behind);
    }
    if 1 < behind {
        let listing = Listing {
            positions,
            k: sessions.k,
            size: sessions.reverse_size,
            strand: Strand::Reverse,
        };
        return beside(fill_lines(reverse, listing, found, out), ahead);
    }
    fill_last(found, cells_passed(forward) + cells_passed(reverse), out)
}
