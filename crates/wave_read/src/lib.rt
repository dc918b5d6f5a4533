// Reads a WAVE file of mono 32-bit float samples, which are handed over as bit patterns.
#![tactic(auto)]

mod chunks; // chunks.rt: one chunk, by its name
mod read; // read.rt: the call
mod samples; // samples.rt: the samples
mod walk; // walk.rt: from chunk to chunk up to the samples

pub use read::{Samples, read_wave};
