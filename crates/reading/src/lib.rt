// The definition of the reading, and the starred strings read by it: specs/ and proofs/. There is no code here.
#![tactic(auto)]
