// The cells of a column in the words of a session, passed by the rule: laws, no code.
#![tactic(auto)]
