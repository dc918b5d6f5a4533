// Definitions and laws of IEEE 754 that the crates above cite; no code of its own.
#![tactic(auto)]
