// One value of each pass.
ghost use Rattle.std.specs.Prelude.{◌≡◌, ◌≤◌};
ghost use Rattle.det.specs.Exp.{exp64};
ghost use Rattle.det.specs.Tanh.{magnitude_of, unit_sign};
ghost use Rattle.tanh_block.specs.Inner.{Inner, twice, tangent_of};

use select::{not_below, pick};

const INV_LN2: f64 = 1.44269504088896340735992468100189214; // LOG2_E, 3ff71547652b82fe

fn magnitude(x: f64) -> f64
    ensures { result ≡ magnitude_of x }
{
    pick(x < 0.0, -x, x)
}

fn unit_sign(x: f64) -> f64
    ensures { result ≡ unit_sign x }
{
    pick(x < 0.0, -1.0, 1.0)
}

// 0 for an x that the passes cover, and for no other.
fn outside(x: f64) -> u64
    ensures { (result ≤ 4) × (result ≡ 0 → Inner x) × (Inner x → result ≡ 0) }
{
    let a = magnitude(x);
    let t = 2.0 * a * INV_LN2;
    not_below(0.0, a)
        + not_below(a, 20.0)
        + not_below(0.0, t)
        + not_below(t, ((t + 4503599627370496.0) - 4503599627370496.0) + 0.5)
}

pub fn outside_f32(x: f32) -> u64
    ensures { (result ≤ 4) × (result ≡ 0 → Inner x) × (Inner x → result ≡ 0) }
{
    outside(rounding::widen(x))
}

// e^2|x|.
pub fn exp_one(x: f32) -> f64
    requires { Inner x }
    ensures { result ≡ exp64 (twice x) }
{
    det::exp_high(2.0 * magnitude(x as f64))
}

// The tangent of x from h = e^2|x|. Only one of the two ways is divided.
fn tangent(x: f64, h: f64) -> f64
    ensures { result ≡ tangent_of x h }
{
    let a = magnitude(x);
    let e = det::expm1_small(2.0 * a);
    let near = a < 0.25;
    let q = pick(near, e, 2.0) / pick(near, e + 2.0, h + 1.0);
    unit_sign(x) * pick(near, q, 1.0 - q)
}

pub fn tangent_one(x: f32, h: f64) -> f64
    requires { Inner x }
    ensures { result ≡ tangent_of x h }
{
    tangent(x as f64, h)
}
