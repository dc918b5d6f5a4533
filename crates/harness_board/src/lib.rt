// A list of operations on a board, as words: what `h_board` of the harness runs.
#![tactic(auto)]

mod run; // run.rt: the operations one after the other
mod step; // step.rt: one operation

pub use run::run_board;
