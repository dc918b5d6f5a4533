// The waves that `seq_note_signal` of render/seq.rs writes in place, one function a wave. Each
// fills the lent slice. The pitch and the duty are read through `dsl::Reading`; `srf` is the rate.
#![tactic(auto)]

mod modulated; // modulated.rt: fm
mod plain; // plain.rt: sawtooth, sine
mod pulse; // pulse.rt: square, triangle
mod phased; // phased.rt: a wave by the steps of its phase
mod steps; // steps.rt: the steps of the phase in a block

pub use modulated::fm;
pub use plain::{sawtooth, sine};
pub use pulse::{square, triangle};
