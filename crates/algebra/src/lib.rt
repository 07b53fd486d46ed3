// Lemmas only: what the proofs of several crates share.
#![tactic(auto)]
