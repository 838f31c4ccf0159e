// What `maplist` prints: definitions, theorems and examples, no code.
#![tactic(auto)]
