// No code to run: specs/ and proofs/ hold the theorem that columns of no field don't matter.
#![tactic(auto)]
