// No code: what the tokens of a text are, as definitions, and the theorems about them.
#![tactic(auto)]
