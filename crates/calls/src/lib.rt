// The calls at one node, defined for every input (specs/), with their theorems (proofs/). Of code there is one size.
#![tactic(auto)]

// The least length of an output buffer.
pub const OUTPUT: usize = 512;
