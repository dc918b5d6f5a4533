// IEEE 754 on f32 and f64: what Rust has as methods and casts and Rattle does not. Every function
// has a result for every bit pattern and asks nothing of its caller. Each contract is one equation
// with a definition, in which one NaN stands for all of them.
#![tactic(auto)]

mod cast; // cast.rt: floats to integers
mod order; // order.rt: max, min, clamp, abs, signum and ranges of an f32
mod order_f64; // order_f64.rt: max of an f64
mod whole_f32; // whole_f32.rt: floor, trunc, round and fract of an f32
mod whole_f64; // whole_f64.rt: floor, trunc and round of an f64

pub use cast::{f32_to_i32, f32_to_usize, f64_to_i64, f64_to_usize};
pub use order::{abs_f32, clamp_f32, max_f32, min_f32, signum_f32, within_f32};
pub use order_f64::max_f64;
pub use whole_f32::{floor_f32, fract_f32, round_f32, trunc_f32};
pub use whole_f64::{floor_f64, near_f64, round_f64, trunc_f64};
