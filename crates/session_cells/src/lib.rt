// The cells of one column, passed in the part of the work words that holds what each row knows; and leaving a column.
#![tactic(auto)]

pub mod cells;
mod fractions;
mod numbers;
mod part;
mod rows;
pub mod score;
mod seen;
pub mod starts;
