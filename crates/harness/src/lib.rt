// The float helpers, the generator, the kernels, one by one and over blocks, the quarter tones, the drum kit's numbers and a board under C names,
// for the comparison with Rust and for timing. No customer links this.
#![tactic(auto)]

mod boards; // boards.rt: a list of operations on a board
mod helpers; // helpers.rt: the float helpers and the generator
mod kernels; // kernels.rt: the kernels of det
mod kits; // kits.rt: the drum kit's numbers
mod over_blocks; // over_blocks.rt: the kernels over a block
mod tones; // tones.rt: the quarter tones

pub use boards::h_board;
pub use tones::h_quarter;
