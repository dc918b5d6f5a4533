// The plucked string of render/seq.rs: `pluck_note`. A burst of noise runs round a delay line as long as a period of
// the note's first pitch (Karplus and Strong). Three stages that draw nothing wrap the loop: a filter that damps or
// brightens, the modes of a guitar's body, and the click of a pick; each does nothing at its default. It draws a period
// of noise and then nothing.
#![tactic(auto)]

mod guitar; // guitar.rt: the tone of a note, and the resonances of the body
mod pluck; // pluck.rt: the plucked string

pub use guitar::{Echo, Echoes, Mode, Timbre};
pub use pluck::{Pick, PluckOut, PluckState, pluck_note};
