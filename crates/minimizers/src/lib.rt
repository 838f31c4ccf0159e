// The windows of k-mers and the winnowing sketch: definitions and laws, and no code.
#![tactic(auto)]
