// The plan of a text score: what it says, with its total of draws, or why it is refused.
#![tactic(auto)]

mod call; // call.rt: the call on a text
mod total; // total.rt: the planning call of a text score

pub use call::plan_text;
