// The laws of `blocks/proofs/Carried` for a part of a note of which only its own step is known. There is no code here.
#![tactic(auto)]
