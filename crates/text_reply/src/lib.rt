// The reply of a text call: a listing, printed where it fits, and the number that C gets of it.
#![tactic(auto)]

mod answer; // answer.rt: a score call's answer, printed
mod reply; // reply.rt: the number that C gets

pub use answer::{reply_answer, reply_frames, reply_refusal};
pub use reply::reply_as_i64;
