// The natural logarithm: x = m·2^k with m in [√2/2, √2], and ln(x) = k·ln 2 + ln(m).
ghost use Rattle.std.specs.Prelude.{◌≡◌, not, T, ◌<◌};
ghost use Rattle.std.specs.Int.Signed.{mag};
ghost use Rattle.std.specs.Float.Ieee.{is_nan};
ghost use Rattle.det.specs.Ln.{ln_series, fold_mant, fold_exp, ln_split, ln64};

use crate::exponential::{LN2_HI, LN2_LO};
use crate::special::{infinity, not_a_number};

const LG1: f64 = 6.666666666666735130e-01; // 3fe5555555555593

const LG2: f64 = 3.999999999940941908e-01; // 3fd999999997fa04

const LG3: f64 = 2.857142874366239149e-01; // 3fd2492494229359

const LG4: f64 = 2.222219843214978396e-01; // 3fcc71c51d8e78af

const LG5: f64 = 1.818357216161805012e-01; // 3fc7466496cb03de

const LG6: f64 = 1.531383769920937332e-01; // 3fc39a09d078c69f

const LG7: f64 = 1.479819860511658591e-01; // 3fc2f112df3e5244

const MIN_POSITIVE: f64 = 2.2250738585072014e-308; // 2^-1022, 0010000000000000

const NEAR_2_64: f64 = 1.84467440737095e19; // 51,200 below 2^64, 43efffffffffffe7

const SQRT_2: f64 = 1.41421356237309504880168872420969808; // 3ff6a09e667f3bcd

// ln(mant · 2^(exp_bits + scale_k)): the series of fdlibm in f = mant − 1.
fn ln_series(mant: f64, exp_bits: i64, scale_k: f64) -> f64
    requires { mag exp_bits < 2049 }
    ensures { result ≡ ln_series mant exp_bits scale_k }
{
    let f = mant - 1.0;
    let s = f / (2.0 + f);
    let z = s * s;
    let w = z * z;
    let t1 = w * (LG2 + w * (LG4 + w * LG6));
    let t2 = z * (LG1 + w * (LG3 + w * (LG5 + w * LG7)));
    let r = t2 + t1;
    let hfsq = 0.5 * f * f;
    let k = exp_bits as f64 + scale_k;
    k * LN2_HI + (f - (hfsq - (s * (hfsq + r) + k * LN2_LO)))
}

// The fold changes two values: a function for each.
fn fold_mant(mant: f64) -> f64
    ensures { result ≡ fold_mant mant }
{
    if mant > SQRT_2 { mant * 0.5 } else { mant }
}

fn fold_exp(mant: f64, exp_bits: i64) -> i64
    requires { mag exp_bits < 2048 }
    ensures { result ≡ fold_exp mant exp_bits }
{
    if mant > SQRT_2 {
        exp_bits + 1
    } else {
        exp_bits
    }
}

// The exponent and the mantissa come from the pattern.
fn ln_split(x: f64, scale_k: f64) -> f64
    requires { T (not (is_nan x)) }
    ensures { result ≡ ln_split x scale_k }
{
    let bits = f64::to_bits(x);
    let exp_bits = ((bits >> 52) & 0x7ff) as i64 - 1023;
    let mant = f64::from_bits((bits & 0x000f_ffff_ffff_ffff) | (1023u64 << 52));
    ln_series(fold_mant(mant), fold_exp(mant, exp_bits), scale_k)
}

// A NaN for a NaN and below 0, minus infinity at 0. A subnormal is first brought to the normal
// range.
pub fn ln(x: f64) -> f64
    ensures { result ≡ ln64 x }
{
    if x != x {
        return not_a_number();
    }
    if x < 0.0 {
        return not_a_number();
    }
    if x == 0.0 {
        return -infinity();
    }
    if x < MIN_POSITIVE {
        return ln_split(x * NEAR_2_64, -64.0);
    }
    ln_split(x, 0.0)
}
