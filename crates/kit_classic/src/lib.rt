// `kit_drum_classic` of render/kit.rs: the default synthesized kit. A drum is a frame function, in the
// order of the source's operations; the drum is handed in, and each frame matches it.
#![tactic(auto)]

mod drums; // drums.rt: kick, snare, rim, clap, toms and the unmapped
mod cymbals; // cymbals.rt: hats, crash and ride, over highpassed noise
mod levels; // levels.rt: the levels of what is noise and no more, and the cowbell
mod frames; // frames.rt: a frame by drum, and a note

pub use frames::kit_drum_classic;
