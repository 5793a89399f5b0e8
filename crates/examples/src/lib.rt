// Worked examples alone: see specs/ and proofs/.
#![tactic(auto)]
