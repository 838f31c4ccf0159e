// Mapping sessions: `session::step` passes cells in the work words that start wrote.
#![tactic(auto)]

pub mod answer;
mod decide;
mod place;
mod rates;
mod score;
pub mod session;
mod settle;
mod small;
mod terms;
mod update;
mod walk;
