// `render_seq` of render/seq.rs: the score call, on a session that it hands back.
#![tactic(auto)]

mod call; // call.rt: the score call
mod station; // station.rt: the score call on one station

pub use call::render_seq;
