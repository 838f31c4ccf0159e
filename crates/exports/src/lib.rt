// The calls of document 01 for programs in other languages: numbers and slices only, since an enum does not cross the C boundary.
// Count and per mille answer one signed number. Of the others, but step, the lent `number` becomes 0 where the call is accepted, else 01's
// refusal number, and the result is the value answered, or the second value.
// A caller passes each slice as two arguments, a pointer and a length, and not as one of 16 bytes.
#![tactic(auto)]

ghost use Rattle.std.specs.Prelude.{◌≡◌, pos, neg_ℤ};
ghost use Rattle.base.specs.Refusals.{refusal_number};
ghost use Rattle.base.specs.Replies.{Reply};
ghost use Rattle.mappings.specs.Score.{task_with};
ghost use Rattle.sketch.specs.Replies.{host_number, count_reply};
ghost use Rattle.per_mille.specs.PerMille.{per_mille_number};
ghost use Rattle.answers.specs.Numbers.{Numbered};
ghost use Rattle.exports.specs.Calls.{Tells, SketchCall, ComplementCall, StrikeCall, SaveCall, LoadCall, StartCall};
ghost use Rattle.exports.specs.Steps.{shown, found_kind, lent, Steps};

use answers::{Numbers, k_after, w_after};
use base::refusal::Refusal;
use mapper::answer::Stepped;
use mapper::session::step;
use mappings::{Score, Scoring};

// The number goes to the lent word, and the value is the result.
fn told(numbers: Numbers, number: &mut u32) -> usize
    ensures { (reply : Reply) → Numbered reply numbers → Tells reply result number.new }
{
    *number = numbers.0;
    numbers.1
}

// A refusal in one signed number.
fn negated(refusal: Refusal) -> i32
    ensures { result ≡ neg_ℤ (pos (refusal_number refusal)) }
{
    -(Numbers::from(refusal).0 as i32)
}

// The count of entries that a sketch would have, or the refusal number negated.
#[unsafe(no_mangle)]
pub extern "C" fn huddlewool_count(letters: &[u8], k: u32, w: u32) -> i32
    ensures { result ≡ host_number (count_reply k w letters.now) }
{
    match sketch::count(letters, k, w) {
        Ok(entries) => entries as i32,
        Err(refusal) => negated(refusal),
    }
}

// 1,000·m / (len + size − m), rounded to the nearest whole number, an exact half to the even one; or −16.
#[tactic(auto, unfolding(per_mille::specs::PerMille::per_mille_answer, per_mille::specs::PerMille::per_mille_number))]
#[unsafe(no_mangle)]
pub extern "C" fn huddlewool_per_mille(m: u32, len: u32, size: u32) -> i32
    ensures { result ≡ per_mille_number m len size }
{
    match per_mille::per_mille(m, len, size) {
        Ok(share) => share as i32,
        Err(refusal) => negated(refusal),
    }
}

#[unsafe(no_mangle)]
pub extern "C" fn huddlewool_sketch(
    letters: &[u8],
    k: u32,
    w: u32,
    codes: &mut [u32],
    positions: &mut [u32],
    number: &mut u32,
) -> usize
    ensures { SketchCall k w letters.now codes.old positions.old
        result number.new codes.new positions.new }
{
    let answer = sketch::sketch(letters, k, w, codes, positions);
    told(answer.into(), number)
}

// The result is the number of bytes written, or those needed.
#[unsafe(no_mangle)]
pub extern "C" fn huddlewool_reverse_complement(
    read: &[u8],
    out: &mut [u8],
    number: &mut u32,
) -> usize
    ensures { ComplementCall read.now out.old result number.new out.new }
{
    let answer = strands::reverse_complement(read, out);
    told(answer.into(), number)
}

#[unsafe(no_mangle)]
pub extern "C" fn huddlewool_strike(
    codes: &[u32],
    positions: &[u32],
    c: u32,
    codes_out: &mut [u32],
    positions_out: &mut [u32],
    number: &mut u32,
) -> usize
    ensures { StrikeCall codes.now codes.now positions.now c codes_out.old
        positions_out.old result number.new codes_out.new positions_out.new }
{
    let answer = strike::strike(codes, positions, c, codes_out, positions_out);
    told(answer.into(), number)
}

#[unsafe(no_mangle)]
pub extern "C" fn huddlewool_strike_read(
    text: &[u32],
    codes: &[u32],
    positions: &[u32],
    c: u32,
    codes_out: &mut [u32],
    positions_out: &mut [u32],
    number: &mut u32,
) -> usize
    ensures { StrikeCall text.now codes.now positions.now c codes_out.old
        positions_out.old result number.new codes_out.new positions_out.new }
{
    let answer = strike::strike_read(text, codes, positions, c, codes_out, positions_out);
    told(answer.into(), number)
}

#[unsafe(no_mangle)]
pub extern "C" fn huddlewool_save(
    codes: &[u32],
    positions: &[u32],
    k: u32,
    w: u32,
    words: &mut [u32],
    number: &mut u32,
) -> usize
    ensures { SaveCall k w codes.now positions.now words.old
        result number.new words.new }
{
    let answer = store_save::save(codes, positions, k, w, words);
    told(answer.into(), number)
}

// k and w go to their own words, which a refusal does not change; the result is the number of entries.
#[unsafe(no_mangle)]
pub extern "C" fn huddlewool_load(
    words: &[u32],
    codes: &mut [u32],
    positions: &mut [u32],
    k_out: &mut u32,
    w_out: &mut u32,
    number: &mut u32,
) -> usize
    ensures { LoadCall words.now k_out.old w_out.old codes.old positions.old
        result number.new k_out.new w_out.new codes.new positions.new }
{
    let loaded = store_load::load(words, codes, positions);
    *k_out = k_after(loaded, *k_out);
    *w_out = w_after(loaded, *w_out);
    told(loaded.into(), number)
}

#[unsafe(no_mangle)]
pub extern "C" fn huddlewool_start(
    text: &[u32],
    pattern: &[u32],
    u: u32,
    v: u32,
    threshold: i32,
    work: &mut [u32],
    number: &mut u32,
) -> usize
    ensures { StartCall (task_with text.now pattern.now (Scoring.Linear u v threshold)) work.old
        result number.new work.new }
{
    let answer = session_start::start(text, pattern, u, v, threshold, work);
    told(answer.into(), number)
}

// start with the weighted Jaccard, and the threshold f/g.
#[unsafe(no_mangle)]
pub extern "C" fn huddlewool_start_jaccard(
    text: &[u32],
    pattern: &[u32],
    f: u32,
    g: u32,
    work: &mut [u32],
    number: &mut u32,
) -> usize
    ensures { StartCall (task_with text.now pattern.now (Scoring.Jaccard f g)) work.old
        result number.new work.new }
{
    let answer = session_start::start_jaccard(text, pattern, f, g, work);
    told(answer.into(), number)
}

// The one signed number of a score: itself, or its divisor. A divisor that no signed number of 32 bits holds is 0: no session has one.
fn shown(score: Score) -> i32
    ensures { result ≡ shown score }
{
    match score {
        Score::Number(z) => z,
        Score::Fraction { divisor, .. } => i32::try_from(divisor).unwrap_or(0),
    }
}

// The number of an answer that hands out such a score.
fn found_kind(score: Score) -> u32
    ensures { result ≡ found_kind score }
{
    match score {
        Score::Number(_) => 0,
        Score::Fraction { .. } => 3,
    }
}

// Found under the linear score is 0, with a, b, score, m and the cells; found under the weighted Jaccard is 3, with the divisor in the score's
// place; finished is 1 and spent 2, with the cells; refused is 01's number, with no cells. a, b, score and m keep their content where nothing is found.
#[unsafe(no_mangle)]
pub extern "C" fn huddlewool_step(
    work: &mut [u32],
    budget: u32,
    a_out: &mut u32,
    b_out: &mut u32,
    score_out: &mut i32,
    m_out: &mut u32,
    cells_out: &mut u32,
) -> u32
    ensures { Steps work.old budget
        (lent a_out.old b_out.old score_out.old m_out.old)
        result work.new
        (lent a_out.new b_out.new score_out.new m_out.new)
        cells_out.new }
{
    let (kind, cells) = match step(work, budget) {
        Ok(
            Stepped::Found {
                a,
                b,
                score,
                m,
                cells,
            },
        ) => {
            *a_out = a;
            *b_out = b;
            *score_out = shown(score);
            *m_out = m;
            (found_kind(score), cells)
        }
        Ok(Stepped::Finished(cells)) => (1, cells),
        Ok(Stepped::Spent(cells)) => (2, cells),
        Err(refusal) => (Numbers::from(refusal).0, 0),
    };
    *cells_out = cells;
    kind
}
