// The f32 wrappers: the f64 kernel, narrowed once.
ghost use Rattle.std.specs.Prelude.{◌≡◌};
ghost use Rattle.trig.specs.Single.{sinf_of, cosf_of};

use crate::sine::{cos, sin};

pub fn sinf(x: f32) -> f32
    ensures { result ≡ sinf_of x }
{
    rounding::narrow(sin(rounding::widen(x)))
}

pub fn cosf(x: f32) -> f32
    ensures { result ≡ cosf_of x }
{
    rounding::narrow(cos(rounding::widen(x)))
}
