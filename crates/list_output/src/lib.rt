// What `maplist` prints, in pieces: `begin` reads the input, opens the sessions of both strands and writes the first line; `fill` writes the
// lines of their mappings and the last line, as many at a time as a lent buffer holds.
#![tactic(auto)]

pub mod beginning;
pub mod filling;
mod lines;
