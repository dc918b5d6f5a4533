// The f32 wrappers: the f64 kernel, narrowed once.
ghost use Rattle.std.specs.Prelude.{◌≡◌};
ghost use Rattle.det.specs.Single.{expf_of, lnf_of, powff_of, tanhf_of};

use crate::exponential::exp;
use crate::hyperbolic::tanh;
use crate::logarithm::ln;
use crate::power::powf;

pub fn expf(x: f32) -> f32
    ensures { result ≡ expf_of x }
{
    rounding::narrow_positive(exp(rounding::widen(x)))
}

pub fn lnf(x: f32) -> f32
    ensures { result ≡ lnf_of x }
{
    rounding::narrow(ln(rounding::widen(x)))
}

pub fn powff(x: f32, y: f32) -> f32
    ensures { result ≡ powff_of x y }
{
    rounding::narrow(powf(rounding::widen(x), rounding::widen(y)))
}

pub fn tanhf(x: f32) -> f32
    ensures { result ≡ tanhf_of x }
{
    rounding::narrow(tanh(rounding::widen(x)))
}
