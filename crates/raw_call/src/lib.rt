// What the calls on numbers and slices share: the voice, the envelope, the session and the `Seq` that these stand for,
// and the numbers of an outcome.
#![tactic(auto)]

mod outcomes; // outcomes.rt: the numbers of an outcome
mod raw; // raw.rt: a voice, an envelope and a `Seq` from numbers and slices
mod sessions; // sessions.rt: eight seeds and eight counts

pub use outcomes::{draws_of, number_of};
pub use raw::{parts_at, seq_of};
pub use sessions::{put_count, session_of};
