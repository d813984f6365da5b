// No code: the points to prove of documents 01 and 02, as one table (specs/) and one theorem (proofs/).
#![tactic(auto)]
