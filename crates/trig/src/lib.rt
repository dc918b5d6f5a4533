// Sine and cosine of det.rs: pure f64 arithmetic with fixed coefficients, so that the answers are
// the same everywhere, and f32 wrappers that narrow once. Every function has an answer for every bit
// pattern. Each contract is one equation with a definition of specs/, which has the operations of
// det.rs in the order written. The other kernels are in the crate `det`.
#![tactic(auto)]

mod sine; // sine.rt: sin, cos
mod single; // single.rt: the f32 wrappers

pub use sine::{cos, cos_poly, less_turns, sin, sin_poly};
pub use single::{cosf, sinf};
