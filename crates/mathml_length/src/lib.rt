// How long the MathML of a text can be: specs/Length.antt and proofs/. There is no code here.
#![tactic(auto)]
