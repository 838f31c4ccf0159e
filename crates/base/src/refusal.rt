// Why a call is refused. specs/Refusals.antt has the number of each refusal, and its second value where the table names one.
#[derive(Clone, Copy, Debug, PartialEq, Eq)]
pub enum Refusal {
    // k is outside 1 to K_LIMIT.
    BadK,
    // The window is outside 1 to W_LIMIT.
    BadW,
    TooManyLetters,
    // A buffer is shorter than the bytes, words or entries needed.
    TooShort(usize),
    // Codes and positions differ in number; or entries that no store can hold.
    BadEntries,
    // c is outside 1 to TEXT_LIMIT.
    BadLimit,
    // u or v is outside 1 to WEIGHT_LIMIT.
    BadWeights,
    // The text has too many entries.
    TooManyEntries,
    // The pattern has no entry or too many.
    BadPattern,
    // There are fewer than WORK_WORDS work words.
    TooFewWords,
    // There are more than HIT_LIMIT hits: so many.
    TooManyHits(usize),
    // The store has no word 0 or a bad one: the index.
    BadHeader(usize),
    // A word of a kind that is not due, or with a bad code or position: its index.
    BadWord(usize),
    // The words of the store run out, go on behind its end, or their count is wrong: the index.
    BadEnd(usize),
    // Work words that no start and no step leaves.
    BadWords,
    // m, the length of the interval or that of the pattern has no per mille.
    BadCounts,
    // g is outside 1 to DIVISOR_LIMIT, or f is over g.
    BadFraction,
}
