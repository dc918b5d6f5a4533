// The drums without a filter. A frame function takes the time t or the level of its frame, and the state before it.
ghost use Rattle.std.specs.Prelude.{◌≡◌};
ghost use Rattle.kit_classic.specs.Drums.{classic_kick, classic_snare, classic_rim, classic_tom};
ghost use Rattle.kit_classic.specs.Block.{classic_noise_by};

use osc::Out;
use rng::Rng;

// The filter's memory, the phase of the thumps, and the generator.
#[derive(Clone, Copy)]
pub struct ClassicState {
    pub lp: f32,
    pub phase: f32,
    pub rng: Rng,
}

// A thump whose pitch falls fast, and the click.
pub fn kick(srf: f32, t: f32, s: ClassicState) -> Out<ClassicState>
    ensures { result ≡ classic_kick srf t s }
{
    let fk = 45.0 + 105.0 * dsp::exp(-t / 0.04);
    let phase = osc::wrap(s.phase + fk / srf);
    let click = kit_parts::click(t, 0.002, 0.4, s.rng);
    Out {
        sample: dsp::sin(dsp::TAU * phase) * dsp::exp(-t / 0.13) + click.value,
        state: ClassicState {
            phase,
            rng: click.rng,
            ..s
        },
    }
}

// A tone's crack and a body of noise.
pub fn snare(t: f32, s: ClassicState) -> Out<ClassicState>
    ensures { result ≡ classic_snare t s }
{
    let tone = dsp::sin(dsp::TAU * 190.0 * t) * 0.4 * dsp::exp(-t / 0.06);
    let w = s.rng.bi();
    Out {
        sample: tone + w.value * 0.8 * dsp::exp(-t / 0.11),
        state: ClassicState { rng: w.rng, ..s },
    }
}

pub fn rim(t: f32, s: ClassicState) -> Out<ClassicState>
    ensures { result ≡ classic_rim t s }
{
    let tone = dsp::sin(dsp::TAU * 800.0 * t) * 0.3 * dsp::exp(-t / 0.03);
    let w = s.rng.bi();
    Out {
        sample: tone + w.value * dsp::exp(-t / 0.025),
        state: ClassicState { rng: w.rng, ..s },
    }
}

// Clap and the unmapped: noise at its level.
pub fn noise(level: f32, s: ClassicState) -> Out<ClassicState>
    ensures { result ≡ classic_noise_by level s }
{
    let w = s.rng.bi();
    Out {
        sample: w.value * level,
        state: ClassicState { rng: w.rng, ..s },
    }
}

// A pitched thump, higher with its number; `above` is the number less 41.
pub fn tom(above: f32, srf: f32, t: f32, s: ClassicState) -> Out<ClassicState>
    ensures { result ≡ classic_tom above srf t s }
{
    let base = 80.0 + 24.0 * above;
    let ft = base * (1.0 - 0.15 * float::min_f32(t / 0.2, 1.0));
    let phase = osc::wrap(s.phase + ft / srf);
    let w = s.rng.bi();
    Out {
        sample: dsp::sin(dsp::TAU * phase) * dsp::exp(-t / 0.18)
            + w.value * 0.1 * dsp::exp(-t / 0.03),
        state: ClassicState {
            phase,
            rng: w.rng,
            ..s
        },
    }
}
