// The cue sheet of an accepted score.
#![tactic(auto)]

mod cue; // cue.rt: what a note's line shows
mod page; // page.rt: lines, page after page
mod sheet; // sheet.rt: the whole sheet

pub use page::sheet_length;
pub use sheet::put_sheet;
