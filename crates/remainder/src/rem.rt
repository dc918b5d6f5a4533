// The remainder of two f32.
ghost use Rattle.std.specs.Prelude.{◌≡◌, ◌*◌, ◌%◌, ◌^◌, ◌<◌, ◌≤◌};
ghost use Rattle.std.specs.Float.{binary32};
ghost use Rattle.std.specs.Float.Ieee.{low, round};
ghost use Rattle.ieee.specs.Remainder.{rem_of};
ghost use Rattle.remainder.specs.Parts.{units_of};

use crate::parts::{place, significand, unit_f32};

// a * 2^shift % q. A remainder is below 2^24, so that 40 places are shifted at a time.
fn rem_shifted(a: u64, shift: u64, q: u64) -> u64
    requires { (0 < q) × (q ≤ 2 ^ 24) }
    ensures { result ≡ a * 2 ^ shift % q }
{
    let mut r = a % q;
    let mut left = shift;
    while left > 40 {
        r = (r << 40) % q;
        left -= 40;
    }
    (r << left) % q
}

// The remainder of two patterns without signs, the first not below the second, with a sign.
fn rem_patterns(negative: bool, m: u32, n: u32) -> f32
    requires { (0 < n) × (n ≤ m) × (m < 0x7f80_0000) }
    ensures { result ≡ round binary32 negative (units_of m % units_of n) (2 ^ low binary32) }
{
    let k = place(n);
    let r = rem_shifted(significand(m), place(m) - k, significand(n));
    (r as f32) * unit_f32(negative, k)
}

// x - y * (x / y cut toward zero), without rounding.
pub fn rem_f32(x: f32, y: f32) -> f32
    ensures { result ≡ rem_of x y }
{
    if x != x {
        return x;
    }
    if y != y {
        return y;
    }
    let bits = f32::to_bits(x);
    let m = bits % 0x8000_0000;
    let n = f32::to_bits(y) % 0x8000_0000;
    if m == 0x7f80_0000 {
        return 0.0f32 / 0.0;
    }
    if n == 0 {
        return 0.0f32 / 0.0;
    }
    // An infinite y is above every x that is left.
    if m < n {
        return x;
    }
    rem_patterns(bits >= 0x8000_0000, m, n)
}
