// Kick, snare, rim, clap and toms. A frame function takes the time t or the level of its
// frame, and the state before it.
ghost use Rattle.std.specs.Prelude.{◌≡◌};
ghost use Rattle.kit_electronic.specs.Drums.{electronic_kick, gate_of, electronic_snare, electronic_rim};
ghost use Rattle.kit_electronic.specs.Drums.{electronic_tom};
ghost use Rattle.kit_electronic.specs.Block.{electronic_clap_by};

use osc::Out;
use rng::Rng;

// The memories of two filters, the phase of the thumps, and the generator.
#[derive(Clone, Copy)]
pub struct ElectronicState {
    pub lp: f32,
    pub lp2: f32,
    pub phase: f32,
    pub rng: Rng,
}

// A driven thump whose pitch falls fast, and the click.
pub fn kick(srf: f32, t: f32, s: ElectronicState) -> Out<ElectronicState>
    ensures { result ≡ electronic_kick srf t s }
{
    let fk = 55.0 + 145.0 * dsp::exp(-t / 0.025);
    let phase = osc::wrap(s.phase + fk / srf);
    let body = dsp::tanh(1.3 * dsp::sin(dsp::TAU * phase)) * 0.85 * dsp::exp(-t / 0.11);
    let click = kit_parts::click(t, 0.003, 0.3, s.rng);
    Out {
        sample: body + click.value,
        state: ElectronicState {
            phase,
            rng: click.rng,
            ..s
        },
    }
}

// The snare's gate: open for 130 milliseconds, then it shuts fast.
fn gate(t: f32) -> f32
    ensures { result ≡ gate_of t }
{
    if t < 0.13 {
        return 1.0;
    }
    dsp::exp(-(t - 0.13) / 0.006)
}

// Two tones and gated noise.
pub fn snare(a5500: f32, t: f32, s: ElectronicState) -> Out<ElectronicState>
    ensures { result ≡ electronic_snare a5500 t s }
{
    let tones = dsp::sin(dsp::TAU * 185.0 * t) * 0.45 + dsp::sin(dsp::TAU * 330.0 * t) * 0.22;
    let tone = tones * dsp::exp(-t / 0.055);
    let gated = gate(t);
    let w = s.rng.bi();
    let lp = s.lp + a5500 * (w.value - s.lp);
    Out {
        sample: tone + (w.value - lp) * 0.7 * dsp::exp(-t / 0.16) * gated,
        state: ElectronicState {
            lp,
            rng: w.rng,
            ..s
        },
    }
}

// Two tones and a tick of noise.
pub fn rim(t: f32, s: ElectronicState) -> Out<ElectronicState>
    ensures { result ≡ electronic_rim t s }
{
    let ring = dsp::sin(dsp::TAU * 1700.0 * t) * 0.5 * dsp::exp(-t / 0.012);
    let knock = dsp::sin(dsp::TAU * 420.0 * t) * 0.3 * dsp::exp(-t / 0.02);
    let w = s.rng.bi();
    Out {
        sample: ring + knock + w.value * 0.3 * dsp::exp(-t / 0.006),
        state: ElectronicState { rng: w.rng, ..s },
    }
}

// Noise at its level, half of it above 5,500 hertz.
pub fn clap(level: f32, a5500: f32, s: ElectronicState) -> Out<ElectronicState>
    ensures { result ≡ electronic_clap_by level a5500 s }
{
    let w = s.rng.bi();
    let lp = s.lp + a5500 * (w.value - s.lp);
    Out {
        sample: (0.5 * (w.value - lp) + 0.5 * w.value) * level * 0.9,
        state: ElectronicState {
            lp,
            rng: w.rng,
            ..s
        },
    }
}

// A driven thump that starts at two and a half times its pitch; `above` is the number less 41.
pub fn tom(above: f32, srf: f32, t: f32, s: ElectronicState) -> Out<ElectronicState>
    ensures { result ≡ electronic_tom above srf t s }
{
    let base = 90.0 + 26.0 * above;
    let ft = base * (1.0 + 1.5 * dsp::exp(-t / 0.05));
    let phase = osc::wrap(s.phase + ft / srf);
    let body = dsp::tanh(1.2 * dsp::sin(dsp::TAU * phase)) * dsp::exp(-t / 0.16);
    let w = s.rng.bi();
    Out {
        sample: body + w.value * 0.08 * dsp::exp(-t / 0.02),
        state: ElectronicState {
            phase,
            rng: w.rng,
            ..s
        },
    }
}
