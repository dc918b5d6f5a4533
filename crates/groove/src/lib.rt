// render/seq.rs: when a note of a score starts, and how long and how loud it is.
#![tactic(auto)]

mod humanize; // humanize.rt: a note's own generator
mod length; // length.rt: a note's length, and how much of it sounds
mod mapped; // mapped.rt: the same under a tempo map
mod timing; // timing.rt: a note's start and gain

pub use humanize::{HumanDraws, humanize_draws, pitch_identity};
pub use length::{note_len, sounded_frames};
pub use mapped::{Mapped, groove_note_mapped, mapped_len, note_end_step};
pub use timing::{Groove, groove_note, step_dur};
