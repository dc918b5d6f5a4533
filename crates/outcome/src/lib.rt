// What a call answers: the draws that it made, or why it was refused.
#![tactic(auto)]

mod answer; // answer.rt: refusals with their numbers
mod verdict; // verdict.rt: tests that refuse

pub use answer::Refusal;
pub use verdict::{domain_verdict, outside, refuse_if};
