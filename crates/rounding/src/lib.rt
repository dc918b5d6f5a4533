// IEEE 754 where a value is rounded to a format: f64 to f32 and the square root of an f32; and a float from
// its pattern. Each function has a result for every bit pattern and asks nothing of its caller, but for the
// two steps `signed_f32` and `narrow_normal`.
#![tactic(auto)]

mod bits; // bits.rt: a float from its pattern
mod convert; // convert.rt: f64 to f32 and back
mod square_root; // square_root.rt: the square root

pub use bits::{f32_from_bits, signed_f32};
pub use convert::{narrow, narrow_normal, narrow_positive, widen};
pub use square_root::sqrt_f32;
