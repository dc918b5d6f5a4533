// units.rs: exact positions on the beat of a score.
#![tactic(auto)]

mod beat; // beat.rt: a fraction of whole numbers, and its order
mod gcd; // gcd.rt: Euclid's steps

pub use beat::Beat;
