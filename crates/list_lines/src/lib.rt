// The lines of the mappings that one session hands out, in pieces that fit a lent buffer.
#![tactic(auto)]

pub mod filling;
pub mod listing;
mod mapping;
pub mod words;
