// What a C program has of the demands: a stream that it passes to the three functions on a reader, rows that tell answers
// apart, and what is written and read back. The crate has no code: the theorems stand in proofs/.
#![tactic(auto)]
