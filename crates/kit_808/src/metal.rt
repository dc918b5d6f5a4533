// The oscillator bank of the TR-808's hats and cymbals, six hard squares, and the drums made of squares.
ghost use Rattle.std.specs.Prelude.{◌≡◌};
ghost use Rattle.kit_808.specs.Metal.{square_of, metal_of, eight08_hat, eight08_cowbell, eight08_crash, eight08_ride};

use crate::drums::Eight08State;
use osc::Out;

// A hard square: the sign of a sine.
fn square(f: f32, t: f32) -> f32
    ensures { result ≡ square_of f t }
{
    float::signum_f32(dsp::sin(dsp::TAU * f * t))
}

fn metal_808(t: f32) -> f32
    ensures { result ≡ metal_of t }
{
    let low = 0.0 + square(205.3, t) + square(304.4, t) + square(369.6, t);
    let sum = low + square(522.7, t) + square(540.0, t) + square(800.0, t);
    sum / 6.0
}

// Both hats: the highpassed bank, which dies with the time constant `decay`; no draw.
pub fn hat(decay: f32, a6000: f32, t: f32, s: Eight08State) -> Out<Eight08State>
    ensures { result ≡ eight08_hat decay a6000 t s }
{
    let m = metal_808(t);
    let hlp = s.hlp + a6000 * (m - s.hlp);
    Out {
        sample: (m - hlp) * 0.55 * dsp::exp(-t / decay),
        state: Eight08State { hlp, ..s },
    }
}

// Two squares; no draw.
pub fn cowbell(t: f32, s: Eight08State) -> Out<Eight08State>
    ensures { result ≡ eight08_cowbell t s }
{
    let a = square(540.0, t);
    let b = square(845.0, t);
    Out {
        sample: 0.4 * (a + b) * dsp::exp(-t / 0.20),
        state: s,
    }
}

// The bank and noise, highpassed together.
pub fn crash(a6000: f32, t: f32, s: Eight08State) -> Out<Eight08State>
    ensures { result ≡ eight08_crash a6000 t s }
{
    let w = s.rng.bi();
    let mix = metal_808(t) * 0.6 + w.value * 0.5;
    let hlp = s.hlp + a6000 * (mix - s.hlp);
    Out {
        sample: (mix - hlp) * 0.7 * dsp::exp(-t / 0.90),
        state: Eight08State {
            hlp,
            rng: w.rng,
            ..s
        },
    }
}

// The same, and a ping.
pub fn ride(a6000: f32, t: f32, s: Eight08State) -> Out<Eight08State>
    ensures { result ≡ eight08_ride a6000 t s }
{
    let w = s.rng.bi();
    let mix = metal_808(t) * 0.5 + w.value * 0.3;
    let hlp = s.hlp + a6000 * (mix - s.hlp);
    let ping = dsp::sin(dsp::TAU * 5200.0 * t) * 0.20 * dsp::exp(-t / 0.30);
    Out {
        sample: (mix - hlp) * 0.6 * dsp::exp(-t / 0.50) + ping,
        state: Eight08State {
            hlp,
            rng: w.rng,
            ..s
        },
    }
}
