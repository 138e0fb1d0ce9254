// Laws about the definitions of crate rules, proved once for everything that is built on them. The
// crate has no code: the laws stand in proofs/.
#![tactic(auto)]
