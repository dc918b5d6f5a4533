// `whole_f32` at f64, with 2^52 for 2^23.
ghost use Rattle.std.specs.Prelude.{◌≡◌};
ghost use Rattle.std.specs.Float.{binary64};
ghost use Rattle.std.specs.Float.Ieee.Nearest.{closest};
ghost use Rattle.ieee.specs.Whole.{whole, cut, raised, half_up, trunc_of, round_of, floor_of};
ghost use Rattle.float.specs.Small.{Small};
ghost use Rattle.float.specs.Near.{near_of};

fn nearest_f64(a: f64) -> f64
    requires { Small binary64 a }
    ensures { result ≡ whole closest a }
{
    (a + 4503599627370496.0) - 4503599627370496.0
}

fn cut_f64(a: f64) -> f64
    requires { Small binary64 a }
    ensures { result ≡ whole cut a }
{
    let n = nearest_f64(a);
    if a < n { n - 1.0 } else { n }
}

fn raised_f64(a: f64) -> f64
    requires { Small binary64 a }
    ensures { result ≡ whole raised a }
{
    let n = nearest_f64(a);
    if n < a { n + 1.0 } else { n }
}

fn half_up_f64(a: f64) -> f64
    requires { Small binary64 a }
    ensures { result ≡ whole half_up a }
{
    let n = nearest_f64(a);
    if a < n + 0.5 { n } else { n + 1.0 }
}

pub fn trunc_f64(x: f64) -> f64
    ensures { result ≡ trunc_of x }
{
    if x > 0.0 {
        if x < 4503599627370496.0 {
            return cut_f64(x);
        }
        return x;
    }
    let a = -x;
    if a > 0.0 {
        if a < 4503599627370496.0 {
            return -cut_f64(a);
        }
        return x;
    }
    x
}

pub fn round_f64(x: f64) -> f64
    ensures { result ≡ round_of x }
{
    if x > 0.0 {
        if x < 4503599627370496.0 {
            return half_up_f64(x);
        }
        return x;
    }
    let a = -x;
    if a > 0.0 {
        if a < 4503599627370496.0 {
            return -half_up_f64(a);
        }
        return x;
    }
    x
}

pub fn floor_f64(x: f64) -> f64
    ensures { result ≡ floor_of x }
{
    if x > 0.0 {
        if x < 4503599627370496.0 {
            return cut_f64(x);
        }
        return x;
    }
    let a = -x;
    if a > 0.0 {
        if a < 4503599627370496.0 {
            return -raised_f64(a);
        }
        return x;
    }
    x
}

// The number that `round_f64` gives, where x is above 0, below 2^52 and below n + 0.5, n being the
// nearest whole number: then it is n. At some halves it is n + 1; there and elsewhere this gives
// nothing. A caller branches on the answer, so what it computes from n can be begun before the test
// is decided, where `round_f64` waits to choose between n and n + 1.
pub fn near_f64(x: f64) -> Option<f64>
    ensures { result ≡ near_of x }
{
    if x > 0.0 {
        if x < 4503599627370496.0 {
            let n = nearest_f64(x);
            if x < n + 0.5 {
                return Some(n);
            }
        }
    }
    None
}
