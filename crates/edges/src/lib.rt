// The starred edges of document 01 as one theorem, proofs/Edges.antt. There is no code here: the
// theorem is about the definitions alone.
#![tactic(auto)]
