// No code to run: specs/ and proofs/ say what becomes of a line that was written, when it is read and when it is written again.
#![tactic(auto)]
