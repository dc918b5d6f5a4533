// How many draws a string and a thump take, known before the note is voiced.
#![tactic(auto)]

mod period; // period.rt: the string's period
mod piano; // piano.rt: the frames of a piano's thump

pub use period::string_period;
pub use piano::thump_frames;
