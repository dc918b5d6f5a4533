// Powers of two and the exponential: e^x = 2^k · e^r with k the whole number nearest to x / ln 2.
ghost use Rattle.std.specs.Prelude.{◌≡◌, T};
ghost use Rattle.det.specs.Exp.{ldexp2_of, scaled, exp_from, exp_reduced, exp64};
ghost use Rattle.det.specs.Low.{High, Low};
ghost use Rattle.det.specs.Rounded.{no_fraction};

use crate::rounded::rounded_to_i64;
use crate::special::infinity;

pub(crate) const LN2_HI: f64 = 6.93147180369123816490e-01; // 3fe62e42fee00000

pub(crate) const LN2_LO: f64 = 1.90821492927058770002e-10; // 3dea39ef35793c76

const INV_LN2: f64 = 1.44269504088896340735992468100189214; // LOG2_E, 3ff71547652b82fe

const P1: f64 = 1.66666666666666019037e-01; // 3fc555555555553e

const P2: f64 = -2.77777777770155933842e-03; // bf66c16c16bebd93

const P3: f64 = 6.61375632143793436117e-05; // 3f11566aaf25de2c

const P4: f64 = -1.65339022054652515390e-06; // bebbbd41c5d26bf1

const P5: f64 = 4.13813679705723846039e-08; // 3e66376972bea4d0

const EXP_MAX: f64 = 7.09782712893383e+02; // 40862e42fefa39e6

const EXP_MIN: f64 = -7.45133219101941e+02; // c0874910d52d3050

// 2^k by its bit pattern: an infinity for k > 1023, 0 for k < -1074. det.rs makes the pattern of 0 at
// k = -1023; here it is the subnormal's.
fn ldexp2(k: i64) -> f64
    ensures { result ≡ ldexp2_of k }
{
    if k > 1023 {
        return infinity();
    }
    if k < -1022 {
        if k < -1074 {
            return 0.0;
        }
        return f64::from_bits(1u64 << ((k + 1074) as u64));
    }
    f64::from_bits(((k + 1023) as u64) << 52)
}

// y · 2^k. 2^1024 is no f64, so that k = 1024 goes by 2^1023 and then by 2.
fn scaled(y: f64, k: i64) -> f64
    ensures { result ≡ scaled y k }
{
    if k >= 1024 {
        return y * ldexp2(k - 1) * 2.0;
    }
    y * ldexp2(k)
}

// exp(x) = 2^k · exp(r), with exp(r) = 1 − (r·c/(c − 2) − r) and c = r − r²·P(r²).
fn exp_from(x: f64, k: f64) -> f64
    requires { T (no_fraction k) }
    ensures { result ≡ exp_from x k }
{
    let r = (x - k * LN2_HI) - k * LN2_LO;
    let t = r * r;
    let c = r - t * (P1 + t * (P2 + t * (P3 + t * (P4 + t * P5))));
    let y = 1.0 - ((r * c) / (c - 2.0) - r);
    scaled(y, rounded_to_i64(k))
}

// The plain way.
fn exp_rounded(x: f64) -> f64
    ensures { result ≡ exp_reduced x }
{
    exp_from(x, float::round_f64(x * INV_LN2))
}

// Below zero, with no branch. The whole number n nearest to -x / ln 2 stands in the last digits of its sum with 2^52, and
// 2^-n has the exponent's field 1023 - n.
pub fn exp_low(x: f64) -> f64
    requires { Low x }
    ensures { result ≡ exp_reduced x }
{
    let a = -(x * INV_LN2);
    let s = a + 4503599627370496.0;
    let k = -(s - 4503599627370496.0);
    let r = (x - k * LN2_HI) - k * LN2_LO;
    let t = r * r;
    let c = r - t * (P1 + t * (P2 + t * (P3 + t * (P4 + t * P5))));
    let y = 1.0 - ((r * c) / (c - 2.0) - r);
    y * f64::from_bits(0x3ff0_0000_0000_0000 - (f64::to_bits(s) << 52))
}

// Above zero: 2^n has the exponent's field 1023 + n.
pub fn exp_high(x: f64) -> f64
    requires { High x }
    ensures { result ≡ exp_reduced x }
{
    let s = x * INV_LN2 + 4503599627370496.0;
    let k = s - 4503599627370496.0;
    let r = (x - k * LN2_HI) - k * LN2_LO;
    let t = r * r;
    let c = r - t * (P1 + t * (P2 + t * (P3 + t * (P4 + t * P5))));
    let y = 1.0 - ((r * c) / (c - 2.0) - r);
    y * f64::from_bits(0x3ff0_0000_0000_0000 + (f64::to_bits(s) << 52))
}

// As far as 1000 ln 2, and not half-way between two whole numbers.
fn exp_above(x: f64) -> f64
    ensures { result ≡ exp_reduced x }
{
    let t = x * INV_LN2;
    if t > 0.0 {
        if t < 1000.0 {
            if t < ((t + 4503599627370496.0) - 4503599627370496.0) + 0.5 {
                return exp_high(x);
            }
        }
    }
    exp_rounded(x)
}

// Most exponentials that a voice asks for in a frame have an argument below zero, so that side is tried first.
fn exp_reduced(x: f64) -> f64
    ensures { result ≡ exp_reduced x }
{
    let a = -(x * INV_LN2);
    if a > 0.0 {
        if a < 1000.0 {
            if a < ((a + 4503599627370496.0) - 4503599627370496.0) + 0.5 {
                return exp_low(x);
            }
        }
    }
    exp_above(x)
}

pub fn exp(x: f64) -> f64
    ensures { result ≡ exp64 x }
{
    if x > EXP_MAX {
        return infinity();
    }
    if x < EXP_MIN {
        return 0.0;
    }
    exp_reduced(x)
}
