// The definition of a text's MathML (docs/MATHML.md), and what is promised of it: specs/ and proofs/. Of code there is the mode alone.
#![tactic(auto)]

// Which brackets a group may drop. A mode is handed down to each child; only a group looks at it, and only a `simple` without script
// hands it on.
#[derive(Clone, Copy)]
pub enum Mode {
    Keep,
    // ( ) and { }
    Argument,
    // these and [ ]
    Text,
}
