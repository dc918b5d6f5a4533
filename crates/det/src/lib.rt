// The exponential, the logarithm, the power and the hyperbolic tangent of det.rs: pure f64
// arithmetic with fixed coefficients, so that the answers are the same everywhere, and f32 wrappers
// that narrow once. Every function has an answer for every bit pattern, but for the steps `exp_low` and
// `exp_high`, which are for arguments in a range. Each contract is one equation
// with a definition of specs/, which has the operations of det.rs in the order written, but for the
// exponential's scaling at k = -1023 and k = 1024 (`det_corners` says what that moves: no f32). Sine
// and cosine are in the crate `trig`.
#![tactic(auto)]

mod exponential; // exponential.rt: powers of two, exp
mod hyperbolic; // hyperbolic.rt: tanh
mod logarithm; // logarithm.rt: ln
mod power; // power.rt: powf
mod rounded; // rounded.rt: the cast of a rounded f64
mod single; // single.rt: the f32 wrappers
mod special; // special.rt: infinity and NaN

pub use exponential::{exp, exp_high, exp_low};
pub use hyperbolic::{expm1_small, tanh};
pub use logarithm::ln;
pub use power::powf;
pub use single::{expf, lnf, powff, tanhf};
