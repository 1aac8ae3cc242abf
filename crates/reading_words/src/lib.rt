// How the work words stand for the definition's reading, which both passes of the reading are proved against: specs/ and proofs/.
// There is no code here.
#![tactic(auto)]
