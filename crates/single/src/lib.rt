// No code to run: specs/ says what it is for a contract to leave one answer, and proofs/ how that is seen.
#![tactic(auto)]
