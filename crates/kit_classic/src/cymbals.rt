// The drums over highpassed noise: each draw less what a one-pole lowpass makes of it.
ghost use Rattle.std.specs.Prelude.{◌≡◌};
ghost use Rattle.kit_classic.specs.Cymbals.{classic_ride};
ghost use Rattle.kit_classic.specs.Block.{classic_hiss_by};

use crate::drums::ClassicState;
use osc::Out;

// Hats and crash: the noise at its level.
pub fn hiss(level: f32, hp_a: f32, s: ClassicState) -> Out<ClassicState>
    ensures { result ≡ classic_hiss_by level hp_a s }
{
    let w = s.rng.bi();
    let past = s.lp;
    let lp = past + hp_a * (w.value - past);
    Out {
        sample: (w.value - lp) * level,
        state: ClassicState {
            lp,
            rng: w.rng,
            ..s
        },
    }
}

// The noise and a ping above it.
pub fn ride(hp_a: f32, t: f32, s: ClassicState) -> Out<ClassicState>
    ensures { result ≡ classic_ride hp_a t s }
{
    let w = s.rng.bi();
    let past = s.lp;
    let lp = past + hp_a * (w.value - past);
    let ping = dsp::sin(dsp::TAU * 5200.0 * t) * 0.25 * dsp::exp(-t / 0.25);
    Out {
        sample: (w.value - lp) * 0.5 * dsp::exp(-t / 0.45) + ping,
        state: ClassicState {
            lp,
            rng: w.rng,
            ..s
        },
    }
}
