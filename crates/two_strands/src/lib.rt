// Runs on both strands: definitions and theorems, no code.
#![tactic(auto)]
