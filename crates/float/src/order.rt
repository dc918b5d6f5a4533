// Comparisons that pick one of their arguments, the absolute value and the sign.
ghost use Rattle.std.specs.Prelude.{◌≡◌};
ghost use Rattle.ieee.specs.Sign.{abs_of, signum_of};
ghost use Rattle.ieee.specs.Order.{max_of, min_of, clamp_of, within_of};

// a if it is above b, else b: of two zeros and at a NaN, b.
pub fn max_f32(a: f32, b: f32) -> f32
    ensures { result ≡ max_of a b }
{
    if a > b { a } else { b }
}

// a if it is below b, else b: of two zeros and at a NaN, b.
pub fn min_f32(a: f32, b: f32) -> f32
    ensures { result ≡ min_of a b }
{
    if a < b { a } else { b }
}

// low if x is below it, high if x is above it, else x, also where x is a NaN.
pub fn clamp_f32(x: f32, low: f32, high: f32) -> f32
    ensures { result ≡ clamp_of x low high }
{
    if x < low {
        return low;
    }
    if x > high {
        return high;
    }
    x
}

// Whether x is from low to high; a NaN is not.
pub fn within_f32(x: f32, low: f32, high: f32) -> bool
    ensures { result ≡ within_of x low high }
{
    if x >= low {
        return x <= high;
    }
    false
}

// x with a plus sign, of a zero too.
pub fn abs_f32(x: f32) -> f32
    ensures { result ≡ abs_of x }
{
    if x > 0.0 {
        return x;
    }
    if x == 0.0 {
        return 0.0;
    }
    -x
}

// 1 with the sign of x, of a zero too: the pattern of 1 under the highest bit of x.
pub fn signum_f32(x: f32) -> f32
    ensures { result ≡ signum_of x }
{
    if x != x {
        return x;
    }
    let bits = f32::to_bits(x);
    f32::from_bits(bits - bits % 0x8000_0000 + 0x3f80_0000)
}
