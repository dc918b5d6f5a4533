// Hats, crash and ride: noise in three bands, and the metal's partials.
ghost use Rattle.std.specs.Prelude.{◌≡◌};
ghost use Rattle.kit_acoustic.specs.Cymbals.{acoustic_crash, acoustic_ride};
ghost use Rattle.kit_acoustic.specs.Block.{acoustic_hat_by};

use crate::drums::{AcousticState, Coefficients};
use osc::Out;

// Both hats: the noise above a filter and the shimmer between two, each by its share.
pub fn hat(
    hiss: f32,
    shine: f32,
    level: f32,
    k: Coefficients,
    s: AcousticState,
) -> Out<AcousticState>
    ensures { result ≡ acoustic_hat_by hiss shine level k s }
{
    let w = s.rng.bi();
    let lpa = s.lpa + k.a11000 * (w.value - s.lpa);
    let hpa = s.hpa + k.a8000 * (lpa - s.hpa);
    let shimmer = lpa - hpa;
    let lpb = s.lpb + k.a6500 * (w.value - s.lpb);
    Out {
        sample: (hiss * (w.value - lpb) + shine * shimmer) * level,
        state: AcousticState {
            lpa,
            lpb,
            hpa,
            rng: w.rng,
            ..s
        },
    }
}

// A wash, a shine that wavers 6 times a second, and the first clash.
pub fn crash(k: Coefficients, t: f32, s: AcousticState) -> Out<AcousticState>
    ensures { result ≡ acoustic_crash k t s }
{
    let w = s.rng.bi();
    let lpa = s.lpa + k.a2500 * (w.value - s.lpa);
    let wash = (w.value - lpa) * 0.60 * dsp::exp(-t / 0.90);
    let lpb = s.lpb + k.a12000 * (w.value - s.lpb);
    let hpa = s.hpa + k.a7000 * (lpb - s.hpa);
    let lfo = 0.6 + 0.4 * dsp::sin(dsp::TAU * 6.0 * t);
    let shine = (lpb - hpa) * lfo * 0.50 * dsp::exp(-t / 0.70);
    let partials = dsp::sin(dsp::TAU * 3300.0 * t)
        + dsp::sin(dsp::TAU * 5240.0 * t)
        + dsp::sin(dsp::TAU * 8130.0 * t);
    let clash = partials * 0.06 * dsp::exp(-t / 0.22);
    Out {
        sample: wash + shine + clash,
        state: AcousticState {
            lpa,
            lpb,
            hpa,
            rng: w.rng,
            ..s
        },
    }
}

// A wash, a shine, and the bell's ping.
pub fn ride(k: Coefficients, t: f32, s: AcousticState) -> Out<AcousticState>
    ensures { result ≡ acoustic_ride k t s }
{
    let w = s.rng.bi();
    let lpa = s.lpa + k.a3000 * (w.value - s.lpa);
    let wash = (w.value - lpa) * 0.45 * dsp::exp(-t / 0.55);
    let lpb = s.lpb + k.a12000 * (w.value - s.lpb);
    let hpa = s.hpa + k.a8000 * (lpb - s.hpa);
    let shine = (lpb - hpa) * 0.40 * dsp::exp(-t / 0.40);
    let partials = dsp::sin(dsp::TAU * 2100.0 * t) * 0.5
        + dsp::sin(dsp::TAU * 3170.0 * t) * 0.3
        + dsp::sin(dsp::TAU * 4200.0 * t) * 0.2;
    let ping = partials * dsp::exp(-t / 0.30);
    Out {
        sample: 0.50 * ping + wash + shine,
        state: AcousticState {
            lpa,
            lpb,
            hpa,
            rng: w.rng,
            ..s
        },
    }
}
