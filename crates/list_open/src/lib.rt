// From the letters of text and read to a session: the calls that `maplist` makes for one strand before its steps, in document 02's order.
#![tactic(auto)]

pub mod calls;
