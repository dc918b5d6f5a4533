// The remainder of two f32, exact, with the sign of the first: Rust's `%` without a call of `fmodf`.
// Each value is a significand times a power of two, in units of the smallest f32, so the remainder
// is one of whole numbers.
#![tactic(auto)]

mod parts; // parts.rt: the significand and the power of two of a pattern
mod rem; // rem.rt: the remainder

pub use rem::rem_f32;
