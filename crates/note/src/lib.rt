// The note call: one voice at one gain over a pitch slice and a duty slice, from a generator that it
// hands back.
#![tactic(auto)]

mod answer; // answer.rt: what it answers
mod call; // call.rt: the note call

pub use answer::NoteAnswer;
pub use call::seq_note_signal;
