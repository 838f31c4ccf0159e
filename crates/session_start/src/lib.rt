// Starting a mapping session, scored either way: `start_scored` copies what a session needs into lent work words.
#![tactic(auto)]

mod heading;
mod hits;
pub mod judging;
mod ordered;
mod per_hit;
mod starts;
mod threshold;

ghost use Rattle.std.specs.Prelude.{◌≡◌, ℕ, ◌≤◌, ◌<◌, length, get_or};
ghost use Rattle.base.specs.Limits.{text_limit, pattern_limit, hit_limit};
ghost use Rattle.base.specs.Refusals.{reply_of};
ghost use Rattle.mappings.specs.Score.{Task, task_with};
ghost use Rattle.session_start.specs.WorkWords.{session_words};
ghost use Rattle.session_start.specs.Start.{start_reply, start_words, after_start};
ghost use Rattle.session_start.specs.Noting.{hit_reply, words_at, Begin, backs as backs_of, Prepared};

use crate::heading::put_heading;
use crate::hits::collect;
use crate::judging::{Allowed, judge};
use crate::ordered::Ordered;
use crate::per_hit::{put_back, put_pairs};
use crate::starts::{block_count, put_starts};
use base::refusal::Refusal;
use base::{HIT_LIMIT, PATTERN_LIMIT, TEXT_LIMIT, WORK_WORDS, copies};
use mappings::Scoring;
use session_words::{BACK, BEST, INDEX, REACH, TOPS};
use sorting::sort_words;

// Writes the work words from the hits' indices and back of each.
fn put_words(
    index: &[u32],
    backs: &[u32],
    allowed: Allowed,
    size: u32,
    work: &mut [u32; WORK_WORDS],
)
    requires lengths { (length index.now ≤ hit_limit) × (length backs.now ≡ length index.now) }
    requires backs_below { (k : ℕ) → k < length backs.now → get_or backs.now k 0 ≤ k }
    ensures { (task : Task) → Prepared task allowed.scoring size index.now backs.now
        → work.new ≡ session_words task work.old 0 }
{
    let h = index.len();
    work[BACK..BACK + h].copy_from_slice(backs);
    work[INDEX..INDEX + h].copy_from_slice(index);
    put_pairs(backs, &mut work[REACH..REACH + h]);
    let shared = put_starts(h, work);
    work[BEST..BEST + h].fill(0);
    work[TOPS..TOPS + block_count(h)].fill(0);
    put_heading(allowed, h as u32, size, shared, work);
}

// The same from the hits' indices and slots.
fn put_session(
    sorted: Ordered,
    index: &[u32],
    slots: &[u32],
    allowed: Allowed,
    work: &mut [u32; WORK_WORDS],
)
    requires begin { Begin sorted.words.now slots.now }
    requires lengths { (length index.now ≤ hit_limit) × (length slots.now ≡ length index.now) }
    ensures { (task : Task) → Prepared task allowed.scoring (length sorted.entry.words.now) index.now
        (backs_of sorted.entry.words.now (words_at sorted.entry.words.now slots.now))
        → work.new ≡ session_words task work.old 0 }
{
    let h = slots.len();
    let mut backs: [u32; HIT_LIMIT] = copies(0);
    put_back(sorted, slots, &mut backs[..h]);
    put_words(index, &backs[..h], allowed, sorted.words.len() as u32, work);
}

// What is left of start once all but the number of hits is judged: no work word is written before that number is known.
fn begin(
    text: &[u32],
    pattern: &[u32],
    allowed: Allowed,
    work: &mut [u32; WORK_WORDS],
) -> Result<usize, Refusal>
    requires { (length text.now ≤ text_limit) × (length pattern.now ≤ pattern_limit) }
    ensures result_value { reply_of result ≡ hit_reply (task_with text.now pattern.now allowed.scoring) }
    ensures work_after { work.new ≡ after_start (reply_of result) (task_with text.now pattern.now allowed.scoring) work.old }
{
    let n = pattern.len();
    let mut words: [u32; PATTERN_LIMIT] = copies(0);
    sort_words(pattern, &mut words[..n]);
    let sorted = Ordered { words: &words[..n] };
    let mut index: [u32; HIT_LIMIT] = copies(0);
    let mut slots: [u32; HIT_LIMIT] = copies(0);
    let h = collect(text, sorted, &mut index, &mut slots);
    if HIT_LIMIT < h {
        return Err(Refusal::TooManyHits(h));
    }
    put_session(sorted, &index[..h], &slots[..h], allowed, work);
    Ok(h)
}

// Starts a session: judges the arguments, and writes what `step` needs into the work words.
pub fn start_scored(
    text: &[u32],
    pattern: &[u32],
    scoring: Scoring,
    work: &mut [u32],
) -> Result<usize, Refusal>
    ensures result_value { reply_of result ≡ start_reply (task_with text.now pattern.now scoring) (length work.old) }
    ensures work_after { work.new ≡ start_words (task_with text.now pattern.now scoring) work.old }
{
    let allowed = judge(scoring)?;
    if TEXT_LIMIT < text.len() {
        return Err(Refusal::TooManyEntries);
    }
    if pattern.is_empty() || PATTERN_LIMIT < pattern.len() {
        return Err(Refusal::BadPattern);
    }
    let Some(words) = work.first_chunk_mut::<WORK_WORDS>() else {
        return Err(Refusal::TooFewWords);
    };
    begin(text, pattern, allowed, words)
}

// The same with the linear score.
pub fn start(
    text: &[u32],
    pattern: &[u32],
    u: u32,
    v: u32,
    threshold: i32,
    work: &mut [u32],
) -> Result<usize, Refusal>
    ensures result_value { reply_of result
        ≡ start_reply (task_with text.now pattern.now (Scoring.Linear u v threshold)) (length work.old) }
    ensures work_after { work.new ≡ start_words (task_with text.now pattern.now (Scoring.Linear u v threshold)) work.old }
{
    start_scored(text, pattern, Scoring::Linear { u, v, threshold }, work)
}

// The same with the weighted Jaccard, and the threshold f/g.
pub fn start_jaccard(
    text: &[u32],
    pattern: &[u32],
    f: u32,
    g: u32,
    work: &mut [u32],
) -> Result<usize, Refusal>
    ensures result_value { reply_of result
        ≡ start_reply (task_with text.now pattern.now (Scoring.Jaccard f g)) (length work.old) }
    ensures work_after { work.new ≡ start_words (task_with text.now pattern.now (Scoring.Jaccard f g)) work.old }
{
    start_scored(text, pattern, Scoring::Jaccard { f, g }, work)
}
