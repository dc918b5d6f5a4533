// render/osc.rs: the oscillators, and the steps that most voices share.
#![tactic(auto)]

ghost use Rattle.std.specs.Prelude.{◌≡◌};
ghost use Rattle.dsl.specs.Domain.{Frames};
ghost use Rattle.osc.specs.Osc.{poly_blep, osc_of, saw_of};
ghost use Rattle.osc.specs.Phase.{wrapped, increment, seconds};

// The waveforms.
#[derive(Clone, Copy)]
pub enum Shape {
    Sine,
    Square,
    Triangle,
    Saw,
}

// A frame's sample, and the state of its voice or drum after it.
#[derive(Clone, Copy)]
pub struct Out<S> {
    pub sample: f32,
    pub state: S,
}

// PolyBLEP residual: what a jump at phase 0 is corrected by, within one increment dt of it.
pub fn poly_blep(t: f32, dt: f32) -> f32
    ensures { result ≡ poly_blep t dt }
{
    if dt <= 0.0 {
        return 0.0;
    }
    if t < dt {
        let u = t / dt;
        return u + u - u * u - 1.0;
    }
    if t > 1.0 - dt {
        let u = (t - 1.0) / dt;
        return u * u + u + u + 1.0;
    }
    0.0
}

// A waveform of unit amplitude at a phase from 0 to 1.
pub fn osc(shape: Shape, phase: f32) -> f32
    ensures { result ≡ osc_of shape phase }
{
    match shape {
        Shape::Sine => dsp::sin(dsp::TAU * phase),
        Shape::Square => { if phase < 0.5 { 1.0 } else { -1.0 } }
        Shape::Triangle => {
            if phase < 0.5 {
                4.0 * phase - 1.0
            } else {
                3.0 - 4.0 * phase
            }
        }
        Shape::Saw => 2.0 * phase - 1.0,
    }
}

// The band-limited sawtooth at a phase.
pub fn saw(phase: f32, dt: f32) -> f32
    ensures { result ≡ saw_of phase dt }
{
    (2.0 * phase - 1.0) - poly_blep(phase, dt)
}

// A phase without its whole part: `phase -= phase.floor()`. Above 0 and below 2, where an increment
// leaves most phases, the floor is 0 or 1 by comparisons alone.
pub fn wrap(phase: f32) -> f32
    ensures { result ≡ wrapped phase }
{
    if phase < 1.0 {
        if phase > 0.0 {
            return phase - 0.0;
        }
    } else if phase < 2.0 {
        return phase - 1.0;
    }
    phase - float::floor_f32(phase)
}

// How far a phase moves in a frame: a pitch below 0 counts as 0.
pub fn phase_step(pitch: f32, srf: f32) -> f32
    ensures { result ≡ increment pitch srf }
{
    float::max_f32(pitch, 0.0) / srf
}

// The time of frame i in seconds. Up to 2^24 frames i is an f32 exactly; from an i32 a processor
// converts it in one instruction.
pub fn frame_time(i: usize, srf: f32) -> f32
    requires { Frames i }
    ensures { result ≡ seconds srf i }
{
    ((i as i32) as f32) / srf
}
