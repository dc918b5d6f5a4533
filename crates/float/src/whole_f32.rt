// Whole numbers near a float. A positive x below 2^23 is added to that
// power and the power taken off again: at that size the format has no place for a fraction, so the
// sum rounds x to a whole number, and the difference is exact. One comparison then makes it the
// whole number that is wanted. From that power on every value is whole; a NaN and a zero, whose
// sign stays, fail the tests and are handed back.
ghost use Rattle.std.specs.Prelude.{◌≡◌};
ghost use Rattle.std.specs.Float.{binary32};
ghost use Rattle.std.specs.Float.Ieee.Nearest.{closest};
ghost use Rattle.ieee.specs.Whole.{whole, cut, raised, half_up, trunc_of, round_of, floor_of, fract_of};
ghost use Rattle.float.specs.Small.{Small};

// The nearest whole number, a half to the even one.
fn nearest_f32(a: f32) -> f32
    requires { Small binary32 a }
    ensures { result ≡ whole closest a }
{
    (a + 8388608.0) - 8388608.0
}

fn cut_f32(a: f32) -> f32
    requires { Small binary32 a }
    ensures { result ≡ whole cut a }
{
    let n = nearest_f32(a);
    if a < n { n - 1.0 } else { n }
}

fn raised_f32(a: f32) -> f32
    requires { Small binary32 a }
    ensures { result ≡ whole raised a }
{
    let n = nearest_f32(a);
    if n < a { n + 1.0 } else { n }
}

fn half_up_f32(a: f32) -> f32
    requires { Small binary32 a }
    ensures { result ≡ whole half_up a }
{
    let n = nearest_f32(a);
    if a < n + 0.5 { n } else { n + 1.0 }
}

// x without its fraction; its sign stays.
pub fn trunc_f32(x: f32) -> f32
    ensures { result ≡ trunc_of x }
{
    if x > 0.0 {
        if x < 8388608.0 {
            return cut_f32(x);
        }
        return x;
    }
    let a = -x;
    if a > 0.0 {
        if a < 8388608.0 {
            return -cut_f32(a);
        }
        return x;
    }
    x
}

// The nearest whole number, a half away from zero.
pub fn round_f32(x: f32) -> f32
    ensures { result ≡ round_of x }
{
    if x > 0.0 {
        if x < 8388608.0 {
            return half_up_f32(x);
        }
        return x;
    }
    let a = -x;
    if a > 0.0 {
        if a < 8388608.0 {
            return -half_up_f32(a);
        }
        return x;
    }
    x
}

// The largest whole number that is not above x.
pub fn floor_f32(x: f32) -> f32
    ensures { result ≡ floor_of x }
{
    if x > 0.0 {
        if x < 8388608.0 {
            return cut_f32(x);
        }
        return x;
    }
    let a = -x;
    if a > 0.0 {
        if a < 8388608.0 {
            return -raised_f32(a);
        }
        return x;
    }
    x
}

// x less its whole part, as Rust's `fract`.
pub fn fract_f32(x: f32) -> f32
    ensures { result ≡ fract_of binary32 x }
{
    x - trunc_f32(x)
}
