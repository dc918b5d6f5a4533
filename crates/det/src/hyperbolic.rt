// The hyperbolic tangent, by a series near zero and by exp elsewhere.
ghost use Rattle.std.specs.Prelude.{◌≡◌};
ghost use Rattle.det.specs.Exp.{exp64};
ghost use Rattle.det.specs.Tanh.{expm1_small, tanh_signed, magnitude_of, unit_sign, tanh64};

use crate::exponential::exp;
use crate::special::not_a_number;

// 1/n! from n = 3 on.
const F3: f64 = 1.0 / 6.0; // 3fc5555555555555

const F4: f64 = 1.0 / 24.0; // 3fa5555555555555

const F5: f64 = 1.0 / 120.0; // 3f81111111111111

const F6: f64 = 1.0 / 720.0; // 3f56c16c16c16c17

const F7: f64 = 1.0 / 5040.0; // 3f2a01a01a01a01a

const F8: f64 = 1.0 / 40320.0; // 3efa01a01a01a01a

const F9: f64 = 1.0 / 362880.0; // 3ec71de3a556c734

const F10: f64 = 1.0 / 3628800.0; // 3e927e4fb7789f5c

const F11: f64 = 1.0 / 39916800.0; // 3e5ae64567f544e4

// e^x − 1 near zero, with nothing cancelled: the terms x/1! to x^11/11! in Horner form, from the
// last coefficient to the first.
pub fn expm1_small(x: f64) -> f64
    ensures { result ≡ expm1_small x }
{
    let acc = F10 + x * F11;
    let acc = F9 + x * acc;
    let acc = F8 + x * acc;
    let acc = F7 + x * acc;
    let acc = F6 + x * acc;
    let acc = F5 + x * acc;
    let acc = F4 + x * acc;
    let acc = F3 + x * acc;
    let acc = 0.5 + x * acc;
    let acc = 1.0 + x * acc;
    x * acc
}

// sign · tanh(x) for an x that is not negative.
fn tanh_signed(x: f64, sign: f64) -> f64
    ensures { result ≡ tanh_signed exp64 x sign }
{
    if x > 20.0 {
        return sign;
    }
    if x < 0.25 {
        // 1 − 2/(e^2x + 1) would cancel here
        let e = expm1_small(2.0 * x);
        return sign * (e / (e + 2.0));
    }
    sign * (1.0 - 2.0 / (exp(2.0 * x) + 1.0))
}

// The pair (-x, -1) of a negative x, else (x, 1): a function for each part.
fn magnitude(x: f64) -> f64
    ensures { result ≡ magnitude_of x }
{
    if x < 0.0 { -x } else { x }
}

fn unit_sign(x: f64) -> f64
    ensures { result ≡ unit_sign x }
{
    if x < 0.0 { -1.0 } else { 1.0 }
}

pub fn tanh(x: f64) -> f64
    ensures { result ≡ tanh64 x }
{
    if x != x {
        return not_a_number();
    }
    tanh_signed(magnitude(x), unit_sign(x))
}
