// The calls from the letters of text and read up to start.
ghost use Rattle.list_open.specs.Opening.{Opens, OpensSketches, OpensPattern};

use base::refusal::Refusal;
use base::{PATTERN_LIMIT, copies};
use requests::Settings;

// Strikes the read's sketch by the counts of the text's codes, which decide, starts the session and answers the number of entries of its
// pattern.
fn open_pattern(
    deciding: &[u32],
    text: &[u32],
    codes: &[u32],
    places: &[u32],
    settings: Settings,
    work: &mut [u32],
) -> Result<usize, Refusal>
    ensures { OpensPattern deciding.now text.now codes.now places.now settings work.old result
        work.new }
{
    let mut pattern: [u32; PATTERN_LIMIT] = copies(0);
    let mut unused: [u32; PATTERN_LIMIT] = copies(0);
    let size = strike::strike_read(
        deciding,
        codes,
        places,
        settings.c,
        &mut pattern,
        &mut unused,
    )?;
    session_start::start_scored(text, &pattern[..size], settings.scoring, work)?;
    Ok(size)
}

// Strikes the text's sketch, and goes on with the read's. The struck text's positions stay in `positions`.
fn open_sketches(
    codes: &[u32],
    places: &[u32],
    read_codes: &[u32],
    read_places: &[u32],
    settings: Settings,
    positions: &mut [u32],
    work: &mut [u32],
) -> Result<usize, Refusal>
    ensures { OpensSketches codes.now places.now read_codes.now read_places.now settings
        positions.old work.old result positions.new work.new }
{
    let mut text: [u32; PATTERN_LIMIT] = copies(0);
    let n = strike::strike(codes, places, settings.c, &mut text, positions)?;
    open_pattern(codes, &text[..n], read_codes, read_places, settings, work)
}

// Sketches the text and the read, strikes both and starts the session of the read: the calls for one strand, in their order. The answer is
// the number of entries of the pattern, or the first refusal.
pub fn open(
    text: &[u8],
    read: &[u8],
    settings: Settings,
    positions: &mut [u32],
    work: &mut [u32],
) -> Result<usize, Refusal>
    ensures { Opens settings text.now read.now positions.old work.old result positions.new
        work.new }
{
    let mut codes: [u32; PATTERN_LIMIT] = copies(0);
    let mut places: [u32; PATTERN_LIMIT] = copies(0);
    let n = sketch::sketch(text, settings.k, settings.w, &mut codes, &mut places)?;
    let mut read_codes: [u32; PATTERN_LIMIT] = copies(0);
    let mut read_places: [u32; PATTERN_LIMIT] = copies(0);
    let read_n = sketch::sketch(
        read,
        settings.k,
        settings.w,
        &mut read_codes,
        &mut read_places,
    )?;
    open_sketches(
        &codes[..n],
        &places[..n],
        &read_codes[..read_n],
        &read_places[..read_n],
        settings,
        positions,
        work,
    )
}
