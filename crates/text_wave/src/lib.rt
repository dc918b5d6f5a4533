// The WAVE file of a text score.
#![tactic(auto)]

mod bits; // bits.rt: the frames' bit patterns
mod call; // call.rt: the call on a text
mod frames; // frames.rt: frames as a file
mod play; // play.rt: the score call of a text score

pub use call::wave_text;
