// Laws that the proofs of the other crates cite, and the definitions that they speak of.
// There is no code here.
#![tactic(auto)]
