// A definition and a lemma alone: see specs/ and proofs/.
#![tactic(auto)]
