// f64 to f32, to the nearest value with ties to the even digit, and back.
ghost use Rattle.std.specs.Prelude.{◌≡◌, ◌+◌, ◌*◌, ◌^◌, ◌<◌, ◌≤◌, not, T, if◌then◌else◌, from_bits, is_nan};
ghost use Rattle.std.specs.Float.{binary32, binary64};
ghost use Rattle.std.specs.Float.Ieee.{units, round};
ghost use Rattle.std.specs.Float.Ieee.Nearest.{closest};
ghost use Rattle.ieee.specs.Narrow.{narrow_of};

use crate::bits::signed_f32;

// Every f32 is an f64.
pub fn widen(x: f32) -> f64
    ensures { result ≡ x }
{
    std::num::f32_to_f64_with_nan(x)
}

// n / 2^d to the nearest whole number, a tie to the even one.
fn round_shift(n: u64, d: u64) -> u64
    requires { (d < 64) × (n < 2 ^ 63) }
    ensures { result ≡ closest n (2 ^ d) }
{
    let unit = 1u64 << d;
    let quotient = n / unit;
    let rest = (n % unit) * 2;
    if rest < unit {
        quotient
    } else if rest == unit {
        quotient + quotient % 2
    } else {
        quotient + 1
    }
}

// r * 2^k of the smallest f32 values, with its sign: an infinity where that is too large.
pub fn pack_f32(sign: bool, k: u64, r: u64) -> f32
    requires { (k < 4096) × (r ≤ 2 ^ 24) × (0 < k → 2 ^ 23 ≤ r) }
    ensures { result ≡ units binary32 sign r k }
{
    let pattern = k * 0x80_0000 + r;
    if pattern < 0x7f80_0000 {
        signed_f32(sign, pattern as u32)
    } else {
        signed_f32(sign, 0x7f80_0000)
    }
}

// q * 2^k of the smallest f64 values, rounded to an f32. `leading_zeros` brings the digits to
// place 62, so that the exponent alone says how many are dropped.
fn narrow_digits(sign: bool, q: u64, k: u64) -> f32
    requires { (0 < q) × (q < 2 ^ 53) × (k < 2046) }
    ensures { result ≡ round binary32 sign (q * 2 ^ k) (2 ^ 1074) }
{
    let z = (u64::leading_zeros(q) - 1) as u64;
    let digits = q << z;
    if z + 886 <= k {
        return pack_f32(sign, k - (z + 886), round_shift(digits, 39));
    }
    let d = z + 925 - k;
    if d < 64 {
        return pack_f32(sign, 0, round_shift(digits, d));
    }
    pack_f32(sign, 0, 0)
}

// The plain way, for any x that is a number: by the three fields of its pattern.
fn narrow_fields(x: f64) -> f32
    requires { T (not (is_nan x)) }
    ensures { result ≡ narrow_of x }
{
    let bits = f64::to_bits(x);
    let sign = bits >= 0x8000_0000_0000_0000;
    let field = (bits >> 52) & 0x7ff;
    let digits = bits & 0xf_ffff_ffff_ffff;
    if field == 0x7ff {
        return signed_f32(sign, 0x7f80_0000);
    }
    if field == 0 {
        if digits == 0 {
            return signed_f32(sign, 0);
        }
        return narrow_digits(sign, digits, 0);
    }
    narrow_digits(sign, digits + 0x10_0000_0000_0000, field - 1)
}

// A value whose f32 has all its 24 digits, from 2^-126 up to but not at 2^128. The exponents'
// fields differ by 896, and 29 digits are dropped. Half a unit less one is added first, and one
// more where the last digit kept is odd, so that what is cut off has been rounded. A carry out of
// the digits makes the next exponent, at the top the infinity's.
pub fn narrow_normal(sign: bool, magnitude: u64) -> f32
    requires { (0x3810_0000_0000_0000 ≤ magnitude) × (magnitude < 0x47f0_0000_0000_0000) }
    ensures { result ≡ narrow_of (from_bits binary64 ((if sign then 2 ^ 63 else 0) + magnitude)) }
{
    let m = magnitude - 0x3800_0000_0000_0000;
    let pattern = (m + 0xfff_ffff + (m >> 29) % 2) >> 29;
    signed_f32(sign, pattern as u32)
}

// x to the nearest f32, a tie to the one whose last digit is even. In the common range it is a sum
// and a shift of the pattern.
pub fn narrow(x: f64) -> f32
    ensures { result ≡ narrow_of x }
{
    if x != x {
        return 0.0f32 / 0.0;
    }
    let bits = f64::to_bits(x);
    let magnitude = bits % 0x8000_0000_0000_0000;
    if magnitude < 0x47f0_0000_0000_0000 {
        if 0x3810_0000_0000_0000 <= magnitude {
            return narrow_normal(bits >= 0x8000_0000_0000_0000, magnitude);
        }
    }
    narrow_fields(x)
}

// The same, by the common range of values above 0 first.
pub fn narrow_positive(x: f64) -> f32
    ensures { result ≡ narrow_of x }
{
    if x != x {
        return narrow(x);
    }
    let bits = f64::to_bits(x);
    if 0x3810_0000_0000_0000 <= bits {
        if bits < 0x47f0_0000_0000_0000 {
            return narrow_normal(false, bits);
        }
    }
    narrow(x)
}
