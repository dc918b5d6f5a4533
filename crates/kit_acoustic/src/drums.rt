// Kick, snare, rim, toms and the unmapped. A frame function takes the time t or the level of its
// frame, the filters' coefficients and the state before it.
ghost use Rattle.std.specs.Prelude.{◌≡◌};
ghost use Rattle.kit_acoustic.specs.Drums.{acoustic_knock, acoustic_kick, acoustic_snare, acoustic_rim, acoustic_tom};
ghost use Rattle.kit_acoustic.specs.Block.{acoustic_unmapped_by};

use osc::Out;
use rng::Rng;

// A one-pole filter's step, by its corner frequency in hertz.
#[derive(Clone, Copy)]
pub struct Coefficients {
    pub a400: f32,
    pub a900: f32,
    pub a2000: f32,
    pub a2500: f32,
    pub a3000: f32,
    pub a3500: f32,
    pub a4000: f32,
    pub a6500: f32,
    pub a7000: f32,
    pub a8000: f32,
    pub a11000: f32,
    pub a12000: f32,
}

// The memories of three filters, the phases of the thumps, and the generator.
#[derive(Clone, Copy)]
pub struct AcousticState {
    pub lpa: f32,
    pub lpb: f32,
    pub hpa: f32,
    pub phase: f32,
    pub phase2: f32,
    pub rng: Rng,
}

// What a kick's beater adds, the filter's memory and the generator after it.
#[derive(Clone, Copy)]
pub struct Knock {
    pub click: f32,
    pub lpa: f32,
    pub rng: Rng,
}

// A beater's knock: highpassed noise and a tick for 18 milliseconds, and after that no draw.
fn beater_knock(k: Coefficients, t: f32, past: f32, rng: Rng) -> Knock
    ensures { result ≡ acoustic_knock k t past rng }
{
    if t < 0.018 {
        let w = rng.bi();
        let lpa = past + k.a3000 * (w.value - past);
        let tick = dsp::sin(dsp::TAU * 2600.0 * t) * dsp::exp(-t / 0.004);
        return Knock {
            click: (w.value - lpa) * 0.50 * dsp::exp(-t / 0.007) + 0.28 * tick,
            lpa,
            rng: w.rng,
        };
    }
    Knock {
        click: 0.0,
        lpa: past,
        rng,
    }
}

// A thump whose pitch falls fast, and the knock.
pub fn kick(k: Coefficients, srf: f32, t: f32, s: AcousticState) -> Out<AcousticState>
    ensures { result ≡ acoustic_kick k srf t s }
{
    let fk = 48.0 + 140.0 * dsp::exp(-t / 0.028);
    let phase = osc::wrap(s.phase + fk / srf);
    let body = dsp::sin(dsp::TAU * phase) * dsp::exp(-t / 0.16);
    let knock = beater_knock(k, t, s.lpa, s.rng);
    Out {
        sample: 0.90 * body + knock.click,
        state: AcousticState {
            lpa: knock.lpa,
            phase,
            rng: knock.rng,
            ..s
        },
    }
}

// A head tuned to two modes, a crack and the wires' buzz.
pub fn snare(k: Coefficients, t: f32, s: AcousticState) -> Out<AcousticState>
    ensures { result ≡ acoustic_snare k t s }
{
    let w = s.rng.bi();
    let m1 = dsp::sin(dsp::TAU * 185.0 * t) * 0.48 * dsp::exp(-t / 0.10);
    let m2 = dsp::sin(dsp::TAU * 330.0 * t) * 0.26 * dsp::exp(-t / 0.07);
    let lpa = s.lpa + k.a3500 * (w.value - s.lpa);
    let crack = (w.value - lpa) * 0.55 * dsp::exp(-t / 0.035);
    let lpb = s.lpb + k.a2500 * (w.value - s.lpb);
    let hpa = s.hpa + k.a400 * (lpb - s.hpa);
    let buzz = (lpb - hpa) * 0.40 * dsp::exp(-t / 0.13);
    Out {
        sample: m1 + m2 + crack + buzz,
        state: AcousticState {
            lpa,
            lpb,
            hpa,
            rng: w.rng,
            ..s
        },
    }
}

// A stick's snap, its ring and a knock.
pub fn rim(k: Coefficients, t: f32, s: AcousticState) -> Out<AcousticState>
    ensures { result ≡ acoustic_rim k t s }
{
    let w = s.rng.bi();
    let lpa = s.lpa + k.a4000 * (w.value - s.lpa);
    let snap = (w.value - lpa) * 0.50 * dsp::exp(-t / 0.012);
    let ring = dsp::sin(dsp::TAU * 1700.0 * t) * 0.35 * dsp::exp(-t / 0.008);
    let knock = dsp::sin(dsp::TAU * 420.0 * t) * 0.30 * dsp::exp(-t / 0.03);
    Out {
        sample: snap + ring + knock,
        state: AcousticState {
            lpa,
            rng: w.rng,
            ..s
        },
    }
}

// A head's fundamental and its next mode, and the stick; `above` is the number less 41.
pub fn tom(above: f32, k: Coefficients, srf: f32, t: f32, s: AcousticState) -> Out<AcousticState>
    ensures { result ≡ acoustic_tom above k srf t s }
{
    let base = 80.0 + 24.0 * above;
    let ft = base * (1.0 - 0.12 * float::min_f32(t / 0.25, 1.0));
    let phase = osc::wrap(s.phase + ft / srf);
    let phase2 = osc::wrap(s.phase2 + 1.59 * ft / srf);
    let fund = dsp::sin(dsp::TAU * phase) * dsp::exp(-t / 0.35);
    let mode = dsp::sin(dsp::TAU * phase2) * 0.30 * dsp::exp(-t / 0.14);
    let w = s.rng.bi();
    let lpa = s.lpa + k.a2000 * (w.value - s.lpa);
    let stick = (w.value - lpa) * 0.18 * dsp::exp(-t / 0.008);
    Out {
        sample: 0.85 * fund + mode + stick,
        state: AcousticState {
            lpa,
            phase,
            phase2,
            rng: w.rng,
            ..s
        },
    }
}

// Any other number: noise, half of it lowpassed, at its level.
pub fn unmapped(level: f32, k: Coefficients, s: AcousticState) -> Out<AcousticState>
    ensures { result ≡ acoustic_unmapped_by level k s }
{
    let w = s.rng.bi();
    let lpa = s.lpa + k.a4000 * (w.value - s.lpa);
    Out {
        sample: (0.5 * w.value + 0.5 * lpa) * level,
        state: AcousticState {
            lpa,
            rng: w.rng,
            ..s
        },
    }
}
