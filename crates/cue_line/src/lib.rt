// One line of a cue sheet: 72 columns and a line feed. Each function prints into a lent slice from a place
// on and answers the place after it; all other bytes stay.
#![tactic(auto)]

mod cell; // cell.rt: a right-aligned column
mod line; // line.rt: the line of a note
mod name; // name.rt: the names of the waves
mod put; // put.rt: bytes one after the other

pub use line::{Cue, put_line};
