// What the four styles of render/kit.rs share: the coefficient of a one-pole filter, noise that ends, a hit
// by blocks, and the notions of its definitions.
#![tactic(auto)]

mod beater; // beater.rt: noise for a while, and after that no draw
mod hit; // hit.rt: the frames of a hit, block by block
mod times; // times.rt: levels by the frames' times alone

ghost use Rattle.std.specs.Prelude.{◌≡◌};
ghost use Rattle.kit_parts.specs.Parts.{coefficient};

pub use beater::click;
pub use hit::{Hit, hit_frames};
pub use times::at_times;

// How far a one-pole filter of the corner frequency `fc` goes toward its input in a frame.
pub fn one_pole_step(fc: f32, srf: f32) -> f32
    ensures { result ≡ coefficient fc srf }
{
    1.0 - dsp::exp(-dsp::TAU * fc / srf)
}
