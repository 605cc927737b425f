// No code to run: specs/ and proofs/ say that the words of a line tell what its listing shows.
#![tactic(auto)]
