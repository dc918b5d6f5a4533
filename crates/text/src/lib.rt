// The text call: a text score's bytes to its listing.
#![tactic(auto)]

mod call; // call.rt: the text call
mod play; // play.rt: the score call of a text score

pub use call::play_text;
