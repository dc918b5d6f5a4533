// dsp.rs: the kernels of `trig` and `det` at f32, under the names that the voices call, `one_pole`, and
// the MIDI number of a pitch.
#![tactic(auto)]

ghost use Rattle.std.specs.Prelude.{◌≡◌};
ghost use Rattle.dsp.specs.Kernels.{sin_of, cos_of, exp_of, powf_of, tanh_of, one_pole, log2_of, hz_to_midi};

pub const TAU: f32 = 6.28318530717958647692528676655900577; // 40c90fdb

pub fn sin(x: f32) -> f32
    ensures { result ≡ sin_of x }
{
    trig::sinf(x)
}

pub fn cos(x: f32) -> f32
    ensures { result ≡ cos_of x }
{
    trig::cosf(x)
}

pub fn exp(x: f32) -> f32
    ensures { result ≡ exp_of x }
{
    exp_fall::expf(x)
}

pub fn powf(x: f32, y: f32) -> f32
    ensures { result ≡ powf_of x y }
{
    det::powff(x, y)
}

pub fn tanh(x: f32) -> f32
    ensures { result ≡ tanh_of x }
{
    det::tanhf(x)
}

// What a level is multiplied by each frame to decay with a time constant of `secs` at rate sr.
pub fn one_pole(secs: f32, sr: f32) -> f32
    ensures { result ≡ one_pole secs sr }
{
    exp(-1.0 / (secs * sr))
}

// The base-2 logarithm: both logarithms are f32, and so is the quotient.
pub fn log2(x: f32) -> f32
    ensures { result ≡ log2_of x }
{
    det::lnf(x) / det::lnf(2.0)
}

// The MIDI number of a pitch in hertz, with its fraction; 440 is 69.
pub fn hz_to_midi(hz: f32) -> f32
    ensures { result ≡ hz_to_midi hz }
{
    69.0 + 12.0 * log2(hz / 440.0)
}
