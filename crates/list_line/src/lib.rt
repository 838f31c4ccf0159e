// The list that is read by a person: the printed line, in `writing`.
#![tactic(auto)]

pub mod writing;
