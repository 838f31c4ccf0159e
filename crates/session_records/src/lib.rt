// Records of a session, over any score: definitions and laws, no code.
#![tactic(auto)]
