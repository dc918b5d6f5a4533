// The judge of a text: what it says, or the number that refuses it before its score call is made.
#![tactic(auto)]

mod buffers; // buffers.rt: what a text call reads and plays in
mod judge; // judge.rt: the tests of a text

pub use buffers::{frames_buffer, string_buffer, words_buffer};
pub use judge::judge_text;
