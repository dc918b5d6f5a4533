// `kit_drum_acoustic` of render/kit.rs: a deeper, roomier kit. A drum is a frame function, in the order
// of the source's operations; the drum is handed in, and each frame matches it.
#![tactic(auto)]

mod cymbals; // cymbals.rt: hats, crash and ride
mod drums; // drums.rt: kick, snare, rim, toms and the unmapped
mod clap; // clap.rt: the clap's bursts
mod levels; // levels.rt: the levels of what is noise and no more, and the cowbell
mod frames; // frames.rt: a frame by drum, and a note

pub use frames::kit_drum_acoustic;
