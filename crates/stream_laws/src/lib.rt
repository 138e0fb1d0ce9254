// What holds of the head of a list of bytes, for each family: what a good frame says of the bytes,
// that more bytes change nothing decided, and how many bytes decide. The crate has no code: the laws
// stand in proofs/.
#![tactic(auto)]
