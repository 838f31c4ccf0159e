// What is asked of a run: its settings. The task that they make of text and read is a definition.
#![tactic(auto)]

use mappings::Scoring;

// k, w and c, and how mappings are scored.
#[derive(Clone, Copy, Debug, PartialEq, Eq)]
pub struct Settings {
    pub k: u32,
    pub w: u32,
    pub c: u32,
    pub scoring: Scoring,
}
