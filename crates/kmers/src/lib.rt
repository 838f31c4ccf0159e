// Letters, their runs, k-mers and ranks: definitions and laws, and no code.
#![tactic(auto)]
