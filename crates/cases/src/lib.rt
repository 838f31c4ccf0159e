// Document 01's nine cases, from letters to answers: definitions of several crates together, and no code.
#![tactic(auto)]
