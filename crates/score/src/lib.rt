// A score as values: its numbers and its voice, and where its notes stand. specs/ has its draws and its
// refusals.
#![tactic(auto)]

mod place; // place.rt: where a note stands
mod seq; // seq.rt: the numbers, the voice, the lengths of the lent buffers

pub use place::{Place, note_at, place_note};
pub use seq::{Lent, Seq, Timing};
