// The planning call: the draws of a score call, without its buffers and its frames.
#![tactic(auto)]

mod call; // call.rt: the planning call
mod total; // total.rt: the total, from a count

pub use call::{Plan, planned_draws};
