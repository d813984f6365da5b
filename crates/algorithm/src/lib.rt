// No code: the algorithm over sets (specs/), and what each step of a node keeps of all nodes (proofs/).
#![tactic(auto)]
