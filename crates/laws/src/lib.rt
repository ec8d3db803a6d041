// What an examination finds is what the definitions say of the recorded run: definitions and their proofs, no code.
#![tactic(auto)]
