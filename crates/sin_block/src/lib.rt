// Sines of a block of arguments. Four passes without a branch, of which those that cover only some
// values count the others: a block with any other is done one by one.
#![tactic(auto)]

mod block; // block.rt: the passes
mod element; // element.rt: one value of each pass

pub use block::{narrowed, sinf_block};
