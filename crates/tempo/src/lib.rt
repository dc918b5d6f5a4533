// dsl/mod.rs: tempo maps, for scores that slow down or speed up.
#![tactic(auto)]

mod judge; // judge.rt: which maps a score may carry
mod map; // map.rt: the points, by value
mod walk; // walk.rt: seconds and tempo at a beat

pub use map::{TempoMap, TempoPoint};
pub use walk::{Span, span_at, tempo_map_bpm_at, tempo_map_seconds_at};
