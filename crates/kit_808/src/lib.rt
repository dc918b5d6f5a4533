// `kit_drum_808` of render/kit.rs: a kit after the Roland TR-808. A drum is a frame function, in the
// order of the source's operations; the drum is handed in, and each frame matches it.
#![tactic(auto)]

mod drums; // drums.rt: kick, snare, rim, clap, toms and the unmapped
mod levels; // levels.rt: the levels of what is noise and no more
mod frames; // frames.rt: a frame by drum, and a note
mod metal; // metal.rt: the metal bank; hats, cowbell, crash and ride

pub use frames::kit_drum_808;
