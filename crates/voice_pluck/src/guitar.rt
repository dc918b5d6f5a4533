// The guitar: what a note's tone knob and rate fix, and the resonances of the body.
ghost use Rattle.std.specs.Prelude.{◌≡◌};
ghost use Rattle.voice_pluck.specs.Guitar.{mode_of, timbre_of, rung, all_rung};

const NEG_LN_1000: f32 = -6.907755; // c0dd0c54: a fall by 60 dB

// One resonance: the weights of its own last value, and of the string's.
#[derive(Clone, Copy)]
pub struct Mode {
    pub a1: f32,
    pub b0: f32,
}

// How bright and how damped the string is, and the body: Helmholtz air, top plate and back. They
// decay alike, so the weight a2 of the value before the last is one for all.
#[derive(Clone, Copy)]
pub struct Timbre {
    pub bright: f32,
    pub damp: f32,
    pub a2: f32,
    pub air: Mode,
    pub top: Mode,
    pub back: Mode,
}

// The last value of a resonance, and the one before it.
#[derive(Clone, Copy)]
pub struct Echo {
    pub y1: f32,
    pub y2: f32,
}

#[derive(Clone, Copy)]
pub struct Echoes {
    pub air: Echo,
    pub top: Echo,
    pub back: Echo,
}

fn resonance(srf: f32, radius: f32, fr: f32, g: f32) -> Mode
    ensures { result ≡ mode_of srf radius fr g }
{
    let w0 = dsp::TAU * fr / srf;
    Mode {
        a1: 2.0 * radius * dsp::cos(w0),
        b0: g * dsp::sin(w0),
    }
}

pub fn guitar_timbre(tone: f32, srf: f32) -> Timbre
    ensures { result ≡ timbre_of tone srf }
{
    let bright = float::max_f32(tone, 0.0);
    let damp = float::max_f32(-tone, 0.0);
    let radius = dsp::exp(NEG_LN_1000 / (0.25 * srf));
    let air = resonance(srf, radius, 100.0, 1.0);
    let top = resonance(srf, radius, 215.0, 0.8);
    let back = resonance(srf, radius, 400.0, 0.5);
    Timbre {
        bright,
        damp,
        a2: -radius * radius,
        air,
        top,
        back,
    }
}

// A resonance one frame on, driven by y.
fn ring(a2: f32, m: Mode, y: f32, e: Echo) -> Echo
    ensures { result ≡ rung a2 m y e }
{
    Echo {
        y1: m.b0 * y + m.a1 * e.y1 + a2 * e.y2,
        y2: e.y1,
    }
}

pub fn ring_all(g: Timbre, y: f32, e: Echoes) -> Echoes
    ensures { result ≡ all_rung g y e }
{
    let air = ring(g.a2, g.air, y, e.air);
    let top = ring(g.a2, g.top, y, e.top);
    let back = ring(g.a2, g.back, y, e.back);
    Echoes { air, top, back }
}
