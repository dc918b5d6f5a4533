// Writes a WAVE file of mono 32-bit float samples, which are handed over as bit patterns.
#![tactic(auto)]

mod header; // header.rt: the 58 bytes before the samples
mod samples; // samples.rt: the samples
mod write; // write.rt: the call

pub use write::write_wave;
