// From the bytes of the input to the two sessions of a run: that of the read, and that of its reverse complement.
#![tactic(auto)]

ghost use Rattle.std.specs.Prelude.{◌≡◌, ◌≤◌, length};
ghost use Rattle.base.specs.Limits.{line_limit};
ghost use Rattle.list_input.specs.Input.{given, input_of};
ghost use Rattle.strands.specs.Complement.{reverse_complement};
ghost use Rattle.list_open.specs.Opening.{Opens};
ghost use Rattle.list_sessions.specs.Sessions.{outcome_of, calls_outcome, OpensBoth};
ghost use Rattle.list_sessions.specs.declared.InputError.TheVariants.{Refused};

use base::refusal::Refusal;
use base::{PATTERN_LIMIT, copies};
use list_input::read_input;
use list_open::calls::open;
use requests::Settings;
use strands::reverse_complement;

// Two sessions, each in its own work words: k, and the number of entries of each pattern.
#[derive(Clone, Copy, Debug, PartialEq, Eq)]
pub struct Sessions {
    pub k: u32,
    pub size: usize,
    pub reverse_size: usize,
}

// Why an input has no sessions: it is malformed, or a call refuses.
#[derive(Clone, Copy, Debug, PartialEq, Eq)]
pub enum InputError {
    Malformed,
    Refused(Refusal),
}

impl From<Refusal> for InputError {
    ghost from_gives = { λ refusal error. error ≡ Refused refusal };

    fn from(refusal: Refusal) -> InputError {
        InputError::Refused(refusal)
    }
}

// The calls for the reverse complement of a read that is no longer than a line.
fn open_reverse(
    text: &[u8],
    read: &[u8],
    settings: Settings,
    positions: &mut [u32],
    work: &mut [u32],
) -> Result<usize, Refusal>
    requires { length read.now ≤ line_limit }
    ensures { Opens settings text.now (reverse_complement read.now) positions.old work.old result
        positions.new work.new }
{
    let mut letters: [u8; PATTERN_LIMIT] = copies(0);
    let n = reverse_complement(read, &mut letters).unwrap();
    open(text, &letters[..n], settings, positions, work)
}

// The calls for the read, and then those for its reverse complement.
fn open_both(
    text: &[u8],
    read: &[u8],
    settings: Settings,
    positions: &mut [u32],
    forward: &mut [u32],
    reverse: &mut [u32],
) -> Result<Sessions, Refusal>
    requires { length read.now ≤ line_limit }
    ensures { OpensBoth (given settings text.now read.now) positions.old forward.old reverse.old (calls_outcome result)
        positions.new forward.new reverse.new }
{
    let size = open(text, read, settings, positions, forward)?;
    let reverse_size = open_reverse(text, read, settings, positions, reverse)?;
    Ok(Sessions {
        k: settings.k,
        size,
        reverse_size,
    })
}

// Reads the input and makes the calls of both strands in their order.
pub fn open_sessions(
    bytes: &[u8],
    positions: &mut [u32],
    forward: &mut [u32],
    reverse: &mut [u32],
) -> Result<Sessions, InputError>
    ensures { OpensBoth (input_of bytes.now) positions.old forward.old reverse.old (outcome_of result) positions.new
        forward.new reverse.new }
{
    let Some(request) = read_input(bytes) else {
        return Err(InputError::Malformed);
    };
    let text = &bytes[request.text..request.text_end];
    let read = &bytes[request.read..request.read_end];
    let sessions = open_both(text, read, request.settings, positions, forward, reverse)?;
    Ok(sessions)
}
