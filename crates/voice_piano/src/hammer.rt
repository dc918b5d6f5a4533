// The hammer's blow on a piano string, and the partials that it starts.
ghost use Rattle.std.specs.Prelude.{◌≡◌, ◌≤◌, take};
ghost use Rattle.voice_piano.specs.Hammer.{blow_of, ratio_of, partial_of, partials_of};

use dsl::PianoKnobs;

const PI: f32 = 3.14159265358979323846264338327950288; // 40490fdb

// The fundamental, how far stiffness stretches the partials, the fundamental's decay time, where
// along the string the hammer strikes, how bright the gain makes it, and how hard the hammer is.
#[derive(Clone, Copy)]
pub struct Blow {
    pub f0: f32,
    pub stretch: f32,
    pub decay: f32,
    pub strike: f32,
    pub bright: f32,
    pub hammer: f32,
}

// A partial of the two strings of a note: its frequency ratio to the fundamental, its amplitude,
// its level now, what the level is multiplied by each frame, and the phase of either string.
#[derive(Clone, Copy)]
pub struct Partial {
    pub step: f32,
    pub amp: f32,
    pub env: f32,
    pub dmul: f32,
    pub phase0: f32,
    pub phase1: f32,
}

// The first `count` of `items` sound.
#[derive(Clone, Copy)]
pub struct Partials {
    pub items: [Partial; 18],
    pub count: usize,
}

// The blow of a note whose first pitch is `pitch`.
pub fn hammer_blow(knobs: PianoKnobs, gain: f32, pitch: f32) -> Blow
    ensures { result ≡ blow_of knobs gain pitch }
{
    let inharm = float::max_f32(knobs.piano_inharm, 0.0);
    let f0 = float::max_f32(pitch, 20.0);
    let stretch = float::clamp_f32(
        7.0e-5 * inharm * (f0 / 55.0),
        5.0e-5 * inharm,
        1.2e-3 * inharm,
    );
    let decay = float::clamp_f32(10.0 * knobs.piano_decay / (1.0 + f0 / 110.0), 0.45, 9.0);
    let strike = float::clamp_f32(knobs.piano_strike, 0.01, 0.5);
    Blow {
        f0,
        stretch,
        decay,
        strike,
        bright: 0.45 + 0.55 * gain,
        hammer: float::max_f32(knobs.piano_hammer, 1e-3),
    }
}

// The frequency ratio of partial k, which stiffness stretches.
fn ratio_of(stretch: f32, k: usize) -> f32
    requires { k ≤ 18 }
    ensures { result ≡ ratio_of stretch k }
{
    let kf = k as f32;
    kf * rounding::sqrt_f32(1.0 + stretch * kf * kf)
}

// Partial k at the start. Its phases are spread by the golden ratio, so that no two partials start
// together.
fn partial_of(b: Blow, srf: f32, k: usize, ratio: f32) -> Partial
    requires { k ≤ 18 }
    ensures { result ≡ partial_of b srf k ratio }
{
    let kf = k as f32;
    let notch = float::abs_f32(dsp::sin(PI * kf * b.strike));
    let tilt = dsp::powf(b.bright, (kf - 1.0) * 0.18 / b.hammer);
    let decay = float::max_f32(b.decay / (1.0 + 0.55 * (kf - 1.0)), 0.05);
    Partial {
        step: ratio,
        amp: notch / kf * tilt,
        env: 1.0,
        dmul: dsp::one_pole(decay, srf),
        phase0: float::fract_f32(kf * 0.618034),
        phase1: float::fract_f32(kf * 0.381966),
    }
}

// The partials of a note: at most 18, and none from the first on that comes near half the rate.
pub fn piano_partials(b: Blow, srf: f32) -> Partials
    ensures { (result.count ≤ 18) × (take result.count result.items ≡ partials_of b srf) }
{
    let none = Partial {
        step: 0.0,
        amp: 0.0,
        env: 0.0,
        dmul: 0.0,
        phase0: 0.0,
        phase1: 0.0,
    };
    let mut items = [none; 18];
    for j in 0..18 {
        let ratio = ratio_of(b.stretch, j + 1);
        if ratio * b.f0 > 0.45 * srf {
            return Partials { items, count: j };
        }
        let p = partial_of(b, srf, j + 1, ratio);
        items[j] = p;
    }
    Partials { items, count: 18 }
}
