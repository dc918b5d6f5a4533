// What is claimed of every list of score calls: definitions in specs/, theorems in proofs/. There is
// no code here.
#![tactic(auto)]
