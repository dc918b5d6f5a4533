// Score calls and note calls on numbers and slices alone: what a C host and a comparison hand in. What is no call at all,
// a wave that is none among it, is answered by a number of its own and changes nothing.
#![tactic(auto)]

mod notes; // notes.rt: the note call
mod scores; // scores.rt: the score call

pub use notes::seq_note_signal;
pub use scores::render_seq;
