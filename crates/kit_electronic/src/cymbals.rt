// The drums over noise above 9,000 hertz: each draw less what a one-pole lowpass makes of it.
ghost use Rattle.std.specs.Prelude.{◌≡◌};
ghost use Rattle.kit_electronic.specs.Cymbals.{electronic_glassy, electronic_ride};
ghost use Rattle.kit_electronic.specs.Block.{electronic_hiss_by};

use crate::drums::ElectronicState;
use osc::Out;

// Closed hat and the unmapped: the noise at its level.
pub fn hiss(gain: f32, level: f32, a9000: f32, s: ElectronicState) -> Out<ElectronicState>
    ensures { result ≡ electronic_hiss_by gain level a9000 s }
{
    let w = s.rng.bi();
    let lp2 = s.lp2 + a9000 * (w.value - s.lp2);
    Out {
        sample: (w.value - lp2) * gain * level,
        state: ElectronicState {
            lp2,
            rng: w.rng,
            ..s
        },
    }
}

// Open hat and crash: the noise, which dies with the time constant `decay`, and a glassy product of two sines,
// which has its own level and time constant.
pub fn glassy(
    decay: f32,
    f1: f32,
    f2: f32,
    level: f32,
    ring: f32,
    a9000: f32,
    t: f32,
    s: ElectronicState,
) -> Out<ElectronicState>
    ensures { result ≡ electronic_glassy decay f1 f2 level ring a9000 t s }
{
    let w = s.rng.bi();
    let lp2 = s.lp2 + a9000 * (w.value - s.lp2);
    let wash = (w.value - lp2) * 1.4 * dsp::exp(-t / decay);
    let glass = dsp::sin(dsp::TAU * f1 * t) * dsp::sin(dsp::TAU * f2 * t);
    Out {
        sample: wash + glass * level * dsp::exp(-t / ring),
        state: ElectronicState {
            lp2,
            rng: w.rng,
            ..s
        },
    }
}

// Two pings over the noise.
pub fn ride(a9000: f32, t: f32, s: ElectronicState) -> Out<ElectronicState>
    ensures { result ≡ electronic_ride a9000 t s }
{
    let w = s.rng.bi();
    let lp2 = s.lp2 + a9000 * (w.value - s.lp2);
    let ping = dsp::sin(dsp::TAU * 5800.0 * t) * 0.35 * dsp::exp(-t / 0.35);
    let bell = dsp::sin(dsp::TAU * 8700.0 * t) * 0.15 * dsp::exp(-t / 0.3);
    Out {
        sample: ping + bell + (w.value - lp2) * 0.4 * dsp::exp(-t / 0.5),
        state: ElectronicState {
            lp2,
            rng: w.rng,
            ..s
        },
    }
}
