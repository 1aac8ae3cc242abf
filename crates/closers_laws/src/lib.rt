// Theorems about the closers and the marks that a reading leaves: proofs/. There is no code here.
#![tactic(auto)]
