// The answer of a step that is not refused.
use mappings::Score;

// What a step answers: a mapping, with the cells passed up to it; or the cells passed, where none remains or the budget is spent.
#[derive(Clone, Copy, Debug, PartialEq, Eq)]
pub enum Stepped {
    Found {
        a: u32,
        b: u32,
        score: Score,
        m: u32,
        cells: u32,
    },
    Finished(u32),
    Spent(u32),
}
