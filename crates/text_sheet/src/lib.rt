// The cue sheet of a text score.
#![tactic(auto)]

mod call; // call.rt: the call on a text
mod sheet; // sheet.rt: the sheet of what a text says

pub use call::sheet_text;
