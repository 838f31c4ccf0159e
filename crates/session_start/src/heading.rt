// The heading of the work words: words 0 to 10 of a session in which no cell has been passed.
ghost use Rattle.std.specs.Prelude.{◌≡◌};
ghost use Rattle.std.proofs.lemmas.List.Edits.{sets};
ghost use Rattle.session_start.specs.Noting.{fresh_heading};

use crate::judging::Allowed;
use crate::threshold::{first_number, kind_number, second_number, threshold_word};
use base::WORK_WORDS;
use session_words::{COLUMNS, HIGHEST, HITS, KIND, PASSED, ROW, SHARED, SIZE, THRESHOLD, U, V};

pub(crate) fn put_heading(
    allowed: Allowed,
    h: u32,
    size: u32,
    shared: u32,
    work: &mut [u32; WORK_WORDS],
)
    ensures { work.new ≡ sets work.old 0 (fresh_heading allowed.scoring h size shared) }
{
    let first = first_number(allowed.scoring);
    let second = second_number(allowed.scoring);
    let kind = kind_number(allowed.scoring);
    let threshold = threshold_word(allowed);
    work[HITS] = h;
    work[U] = first;
    work[V] = second;
    work[PASSED] = 0;
    work[KIND] = kind;
    work[SIZE] = size;
    work[THRESHOLD] = threshold;
    work[COLUMNS] = h;
    work[ROW] = 0;
    work[SHARED] = shared;
    work[HIGHEST] = threshold;
}
