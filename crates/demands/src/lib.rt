// When each number for no is given, demand 3 for each family, the lister's agreement with the stream
// reader, and the bench sheet. The crate has no code: the theorems stand in proofs/.
#![tactic(auto)]
