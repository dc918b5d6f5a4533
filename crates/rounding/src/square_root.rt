// The square root of an f32, correctly rounded.
ghost use Rattle.std.specs.Prelude.{◌≡◌, ◌+◌, ◌*◌, ◌^◌, ◌<◌, ◌≤◌};
ghost use Rattle.std.specs.Float.{binary32};
ghost use Rattle.ieee.specs.Root.{root_round, sqrt_of};

use crate::convert::pack_f32;

// The largest r with r * r <= m, a digit at a time from the highest.
fn isqrt48(m: u64) -> u64
    requires { m < 2 ^ 48 }
    ensures { (result * result ≤ m) × (m < (result + 1) * (result + 1)) }
{
    let mut r = 0u64;
    for i in 0u64..24 {
        let t = r + (1u64 << (23 - i));
        if t * t <= m {
            r = t;
        }
    }
    r
}

// The root of q * 2^k of the smallest f32 values. `leading_zeros` brings the digits to place 46,
// or 47 where that makes the exponent even, so that the whole root has 24 digits. What remains
// above the root's square says whether the root is past the half.
fn root_digits(q: u64, k: u64) -> f32
    requires { (0 < q) × (q < 2 ^ 24) × (k < 254) }
    ensures { result ≡ root_round binary32 (q * 2 ^ k) (2 ^ 149) }
{
    let z = (u64::leading_zeros(q) - 17) as u64;
    let e = k + 149 - z;
    let m = q << (z + e % 2);
    let s = isqrt48(m);
    if m - s * s > s {
        return pack_f32(false, e / 2, s + 1);
    }
    pack_f32(false, e / 2, s)
}

// The root of a zero is that zero; below zero there is none.
pub fn sqrt_f32(x: f32) -> f32
    ensures { result ≡ sqrt_of x }
{
    if x != x {
        return x;
    }
    if x == 0.0 {
        return x;
    }
    if x < 0.0 {
        return 0.0f32 / 0.0;
    }
    let bits = f32::to_bits(x) as u64;
    let field = (bits >> 23) & 0xff;
    let digits = bits & 0x7f_ffff;
    if field == 0xff {
        return x;
    }
    if field == 0 {
        return root_digits(digits, 0);
    }
    root_digits(digits + 0x80_0000, field - 1)
}
