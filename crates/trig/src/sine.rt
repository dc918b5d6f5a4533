// Sine and cosine: the argument is brought near zero, and a polynomial of fdlibm does the rest.
ghost use Rattle.std.specs.Prelude.{◌≡◌};
ghost use Rattle.ieee.specs.Whole.{round_of};
ghost use Rattle.trig.specs.Trig.{sin_poly, cos_poly, less_turns, reduce2pi, rem_euclid4, quadrant, sin_reduced, sin64, cos64};

// 2π in three parts: the later ones carry what the f64 nearest to 2π drops.
const PI2_HI: f64 = 6.28318530717958647692528676655900577; // TAU, 401921fb54442d18

const PI2_MID: f64 = 2.44929359829470641445e-16; // 3cb1a62633145c07

const PI2_LO: f64 = 1.74968224062658175647e-32; // 3956b651091684d4

const INV_PI2: f64 = 1.59154943091895335769e-01; // 1/(2π), 3fc45f306dc9c883

const FRAC_PI_2: f64 = 1.57079632679489661923132169163975144; // π/2, 3ff921fb54442d18

const S1: f64 = -1.66666666666666324348e-01; // bfc5555555555549

const S2: f64 = 8.33333333332248946124e-03; // 3f8111111110f8a6

const S3: f64 = -1.98412698298579493134e-04; // bf2a01a019c161d5

const S4: f64 = 2.75573137070700676789e-06; // 3ec71de357b1fe7d

const S5: f64 = -2.50507602534068634195e-08; // be5ae5e68a2b9ceb

const S6: f64 = 1.58969099521155010221e-10; // 3de5d93a5acfd57c

const C1: f64 = 4.16666666666666019037e-02; // 3fa555555555554c

const C2: f64 = -1.38888888888741095749e-03; // bf56c16c16c15177

const C3: f64 = 2.48015872894767294178e-05; // 3efa01a019cb1590

const C4: f64 = -2.75573143513906633035e-07; // be927e4f809c52ad

const C5: f64 = 2.08757232129817482790e-09; // 3e21ee9ebdb4b1c4

const C6: f64 = -1.13596475577881948265e-11; // bda8fae9be8838d4

// sin(x) on [-π/4, π/4]: x + x³·S(x²).
pub fn sin_poly(x: f64) -> f64
    ensures { result ≡ sin_poly x }
{
    let z = x * x;
    x + x * z * (S1 + z * (S2 + z * (S3 + z * (S4 + z * (S5 + z * S6)))))
}

// cos(x) on [-π/4, π/4]: 1 − x²/2 + x⁴·C(x²).
pub fn cos_poly(x: f64) -> f64
    ensures { result ≡ cos_poly x }
{
    let z = x * x;
    1.0 - 0.5 * z + z * z * (C1 + z * (C2 + z * (C3 + z * (C4 + z * (C5 + z * C6)))))
}

// x less k times 2π.
pub fn less_turns(x: f64, k: f64) -> f64
    ensures { result ≡ less_turns x k }
{
    ((x - k * PI2_HI) - k * PI2_MID) - k * PI2_LO
}

// x less the whole number of turns nearest to t.
fn less_rounded(x: f64, t: f64) -> f64
    ensures { result ≡ less_turns x (round_of t) }
{
    if let Some(n) = float::near_f64(t) {
        return less_turns(x, n);
    }
    less_turns(x, float::round_f64(t))
}

// The same. Near zero that number is a constant, and the compiler works out the products with it. A
// NaN fails every test.
fn less_nearest(x: f64, t: f64) -> f64
    ensures { result ≡ less_turns x (round_of t) }
{
    if t < 0.5 {
        if t > 0.0 {
            return less_turns(x, 0.0);
        }
        let back = -t;
        if back > 0.0 {
            if back < 0.5 {
                return less_turns(x, -0.0);
            }
            if back < 1.5 {
                return less_turns(x, -1.0);
            }
        }
        return less_rounded(x, t);
    }
    if t < 1.5 {
        return less_turns(x, 1.0);
    }
    less_rounded(x, t)
}

// x less the nearest multiple of 2π, for an x that is not too large: within [-π, π].
fn reduce_2pi(x: f64) -> f64
    ensures { result ≡ reduce2pi x }
{
    less_nearest(x, x * INV_PI2)
}

// q.rem_euclid(4). No i64 is negated: -1 - q fits for every negative q.
fn rem_euclid_4(q: i64) -> u64
    ensures { result ≡ rem_euclid4 q }
{
    if q >= 0 {
        return (q as u64) % 4;
    }
    3 - ((-1 - q) as u64) % 4
}

// The answer at a from the quarter turn that a was measured from.
fn by_quadrant(n: u64, a: f64) -> f64
    ensures { result ≡ quadrant n a }
{
    match n {
        0 => sin_poly(a),
        1 => cos_poly(a),
        2 => -sin_poly(a),
        _ => -cos_poly(a),
    }
}

// The sine of any r. q is the number of quarter turns nearest to it.
fn sin_any(r: f64) -> f64
    ensures { result ≡ sin_reduced r }
{
    let q = float::f64_to_i64(float::round_f64(r / FRAC_PI_2));
    let a = r - std::num::nearest_i64_to_f64(q) * FRAC_PI_2;
    by_quadrant(rem_euclid_4(q), a)
}

// The sine of a reduced r. Up to two quarter turns either way their number is a constant.
fn sin_reduced(r: f64) -> f64
    ensures { result ≡ sin_reduced r }
{
    let t = r / FRAC_PI_2;
    if t < 0.5 {
        let back = -t;
        if back < 0.5 {
            return by_quadrant(0, r - 0.0 * FRAC_PI_2);
        }
        if back < 1.5 {
            return by_quadrant(3, r - -1.0 * FRAC_PI_2);
        }
        if back < 2.5 {
            return by_quadrant(2, r - -2.0 * FRAC_PI_2);
        }
        return sin_any(r);
    }
    if t < 1.5 {
        return by_quadrant(1, r - 1.0 * FRAC_PI_2);
    }
    if t < 2.5 {
        return by_quadrant(2, r - 2.0 * FRAC_PI_2);
    }
    sin_any(r)
}

pub fn sin(x: f64) -> f64
    ensures { result ≡ sin64 x }
{
    sin_reduced(reduce_2pi(x))
}

// cos(x) = sin(x + π/2), by the same kernel.
pub fn cos(x: f64) -> f64
    ensures { result ≡ cos64 x }
{
    sin(x + FRAC_PI_2)
}
