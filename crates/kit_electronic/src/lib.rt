// `kit_drum_electronic` of render/kit.rs: a clean synthesized kit. A drum is a frame function, in the
// order of the source's operations; the drum is handed in, and each frame matches it.
#![tactic(auto)]

mod cymbals; // cymbals.rt: hats, crash, ride and the unmapped
mod drums; // drums.rt: kick, snare, rim, clap and toms
mod clap; // clap.rt: the levels of a clap
mod levels; // levels.rt: the levels of what is noise and no more, and the cowbell
mod frames; // frames.rt: a frame by drum, and a note

pub use frames::kit_drum_electronic;
