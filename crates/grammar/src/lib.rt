// The grammar of asciimath.org, and that the lists it settles read as their derivations. There is no code here.
#![tactic(auto)]
