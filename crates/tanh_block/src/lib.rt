// Hyperbolic tangents of a block of arguments. Passes without a branch, which work out both ways of
// tanh; a block with an argument that they don't cover is done one by one.
#![tactic(auto)]

mod block; // block.rt: the passes
mod element; // element.rt: one value of each pass

pub use block::tanhf_block;
