// Kick, snare, rim, clap, toms and the unmapped. A frame function takes the time t or the level of its
// frame, and the state before it.
ghost use Rattle.std.specs.Prelude.{◌≡◌};
ghost use Rattle.kit_parts.specs.Parts.{drawn_if};
ghost use Rattle.kit_808.specs.Drums.{clicks, snaps, eight08_click, eight08_kick, eight08_snare, eight08_snap, eight08_rim};
ghost use Rattle.kit_808.specs.Drums.{burst_of, eight08_tom};
ghost use Rattle.kit_808.specs.Block.{eight08_clap_by, eight08_noise_by};

use osc::Out;
use rng::{Draw, Rng};

// The memories of three filters, the phase of the thumps, and the generator.
#[derive(Clone, Copy)]
pub struct Eight08State {
    pub hlp: f32,
    pub clp: f32,
    pub chp: f32,
    pub phase: f32,
    pub rng: Rng,
}

// A kick's click: noise and a tone for 4 milliseconds, and after that no draw.
fn beater_click(t: f32, rng: Rng) -> Draw<f32>
    ensures { (result.value ≡ eight08_click t rng) × (result.rng ≡ drawn_if (clicks t) rng) }
{
    if t < 0.004 {
        let d = rng.bi();
        let both = d.value * 0.5 + dsp::sin(dsp::TAU * 1600.0 * t) * 0.5;
        return Draw {
            value: both * dsp::exp(-t / 0.0015),
            rng: d.rng,
        };
    }
    Draw { value: 0.0, rng }
}

// A long booming thump, and the click.
pub fn kick(srf: f32, t: f32, s: Eight08State) -> Out<Eight08State>
    ensures { result ≡ eight08_kick srf t s }
{
    let fk = 52.0 + 68.0 * dsp::exp(-t / 0.025);
    let phase = osc::wrap(s.phase + fk / srf);
    let body = dsp::sin(dsp::TAU * phase) * dsp::exp(-t / 0.60);
    let click = beater_click(t, s.rng);
    Out {
        sample: body + click.value * 0.5,
        state: Eight08State {
            phase,
            rng: click.rng,
            ..s
        },
    }
}

// Two tones and highpassed noise.
pub fn snare(a6000: f32, t: f32, s: Eight08State) -> Out<Eight08State>
    ensures { result ≡ eight08_snare a6000 t s }
{
    let tones = dsp::sin(dsp::TAU * 175.0 * t) + dsp::sin(dsp::TAU * 330.0 * t);
    let tone = tones * 0.32 * dsp::exp(-t / 0.10);
    let w = s.rng.bi();
    let hlp = s.hlp + a6000 * (w.value - s.hlp);
    Out {
        sample: tone + (w.value - hlp) * 0.7 * dsp::exp(-t / 0.07),
        state: Eight08State {
            hlp,
            rng: w.rng,
            ..s
        },
    }
}

// A rim's snap: noise for 3 milliseconds, and after that no draw.
fn rim_snap(t: f32, rng: Rng) -> Draw<f32>
    ensures { (result.value ≡ eight08_snap t rng) × (result.rng ≡ drawn_if (snaps t) rng) }
{
    if t < 0.003 {
        let d = rng.bi();
        return Draw {
            value: d.value * 0.3 * dsp::exp(-t / 0.001),
            rng: d.rng,
        };
    }
    Draw { value: 0.0, rng }
}

// The tick of a clave, and the snap.
pub fn rim(t: f32, s: Eight08State) -> Out<Eight08State>
    ensures { result ≡ eight08_rim t s }
{
    let tick = dsp::sin(dsp::TAU * 1700.0 * t) * 0.7 * dsp::exp(-t / 0.006);
    let snap = rim_snap(t, s.rng);
    Out {
        sample: tick + snap.value,
        state: Eight08State { rng: snap.rng, ..s },
    }
}

// A clap's three bursts, 10 milliseconds apart.
pub fn burst(t: f32) -> f32
    ensures { result ≡ burst_of t }
{
    if t < 0.030 {
        let ph = remainder::rem_f32(t, 0.010) / 0.010;
        return dsp::exp(-ph / 0.22);
    }
    0.0
}

// Noise in a band, whose level has the bursts and a tail.
pub fn clap(level: f32, clo_a: f32, chi_a: f32, s: Eight08State) -> Out<Eight08State>
    ensures { result ≡ eight08_clap_by level clo_a chi_a s }
{
    let w = s.rng.bi();
    let clp = s.clp + clo_a * (w.value - s.clp);
    let chp = s.chp + chi_a * (clp - s.chp);
    Out {
        sample: (clp - chp) * level * 1.1,
        state: Eight08State {
            clp,
            chp,
            rng: w.rng,
            ..s
        },
    }
}

// A thump, shorter with its number and without a draw; `above` is the number less 41.
pub fn tom(above: f32, srf: f32, t: f32, s: Eight08State) -> Out<Eight08State>
    ensures { result ≡ eight08_tom above srf t s }
{
    let base = 90.0 + 26.0 * above;
    let ft = base * (1.0 + 0.6 * dsp::exp(-t / 0.02));
    let phase = osc::wrap(s.phase + ft / srf);
    let dec = 0.32 - 0.025 * above;
    Out {
        sample: dsp::sin(dsp::TAU * phase) * dsp::exp(-t / dec),
        state: Eight08State { phase, ..s },
    }
}

// Any other number: noise at its level.
pub fn noise(level: f32, s: Eight08State) -> Out<Eight08State>
    ensures { result ≡ eight08_noise_by level s }
{
    let w = s.rng.bi();
    Out {
        sample: w.value * level,
        state: Eight08State { rng: w.rng, ..s },
    }
}
