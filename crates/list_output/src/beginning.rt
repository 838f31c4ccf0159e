// The first piece of the output: the header where the input opens two sessions, else the one line that says why there are none.
ghost use Rattle.std.specs.Prelude.{◌≡◌, ◌+◌, None};
ghost use Rattle.list_lines.specs.Pieces.{cells_left};
ghost use Rattle.list_output.specs.Beginning.{Begins};

use crate::lines::{put_header, put_malformed, put_refused};
use answers::Numbers;
use list_lines::words::cells_left;
use list_sessions::{InputError, Sessions, open_sessions};

// The bytes of the piece; the two sessions whose lines are still to be printed, where there are any; and the cells that remain and one
// more for each session, or 0 where nothing is left to print.
#[derive(Clone, Copy, Debug, PartialEq, Eq)]
pub struct Begun {
    pub written: usize,
    pub sessions: Option<Sessions>,
    pub left: u32,
}

// The piece is the whole output.
fn whole(written: usize) -> Begun
    ensures { (result.written ≡ written) × (result.sessions ≡ None) × (result.left ≡ 0) }
{
    Begun {
        written,
        sessions: None,
        left: 0,
    }
}

// The cells that remain and one more for each session.
#[tactic(auto, using(list_lines::proofs::Left::left_few))]
fn both_left(forward: &[u32], reverse: &[u32]) -> u32
    ensures { result ≡ cells_left forward.now + cells_left reverse.now }
{
    cells_left(forward) + cells_left(reverse)
}

// Reads the input, makes the calls of both strands up to start, and writes the first line of the output.
pub fn begin(
    bytes: &[u8],
    positions: &mut [u32],
    forward: &mut [u32],
    reverse: &mut [u32],
    out: &mut [u8],
) -> Begun
    ensures { Begins bytes.now positions.old forward.old reverse.old out.old result
        positions.new forward.new reverse.new out.new }
{
    match open_sessions(bytes, positions, forward, reverse) {
        Ok(sessions) => Begun {
            written: put_header(out, 0),
            sessions: Some(sessions),
            left: both_left(forward, reverse),
        },
        Err(InputError::Malformed) => whole(put_malformed(out, 0)),
        Err(InputError::Refused(refusal)) => {
            whole(put_refused(out, 0, Numbers::from(refusal).0))
        },
    }
}
