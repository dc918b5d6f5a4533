// What refuses a score call, but for 22, in the order of the tests.
#![tactic(auto)]

mod call; // call.rt: all refusals but the last
mod notes; // notes.rt: the refusals of notes, one by one
mod numbers; // numbers.rt: the refusals of the numbers, 1 to 5 with 31 and 32

pub use call::score_verdict;
