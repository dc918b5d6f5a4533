// A text score from its bytes: its notes, and the whole of it.
#![tactic(auto)]

mod notes; // notes.rt: the lines N
mod text; // text.rt: the whole text

pub use text::{TextScore, read_score};
