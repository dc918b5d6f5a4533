// One value of each pass: an answer, and a count that is 0 where the answer is right. Both ways of
// each choice are worked out, so that the loops over them have no branch.
ghost use Rattle.std.specs.Prelude.{◌≡◌, true, not, ◌^◌, ◌≤◌, ◌<◌, T};
ghost use Rattle.std.specs.Float.Ieee.{lt, of_bits, is_nan};
ghost use Rattle.std.specs.Float.{binary64};
ghost use Rattle.ieee.specs.Narrow.{narrow_of};
ghost use Rattle.ieee.specs.Binary64.{◌⊟◌, ◌⊠◌};
ghost use Rattle.trig.specs.Trig.{FRAC·PI·2, reduce2pi, sin_reduced};
ghost use Rattle.sin_block.specs.Sizes.{d4};
ghost use Rattle.sin_block.specs.OneSum.{nearest_by_one_sum, SureBelow};
ghost use Rattle.sin_block.specs.Quarter.{poly_at, sine_at};

use select::{not_below, pick};

const INV_PI2: f64 = 1.59154943091895335769e-01; // 1/(2π), 3fc45f306dc9c883

const FRAC_PI_2: f64 = 1.57079632679489661923132169163975144; // π/2, 3ff921fb54442d18

const WHOLE: f64 = 6755399441055744.0; // 1.5 * 2^52, 4338000000000000

const MOST: f64 = 1267650600228229401496703205376.0; // 2^100, 4630000000000000

const LEAST: f64 = 6.310887241768095e-30; // 2^-97, which is 2^29 times the smallest normal f32, 39e0000000000000

// An answer, and a count that is 0 where it is right: an `Option` would be tested, and the loops would branch.
#[derive(Clone, Copy)]
pub struct Tried<T> {
    pub value: T,
    pub bad: u64,
}

// The whole number nearest to t: a sum with 1.5 * 2^52 has no digits after the point, whatever the sign.
fn whole(t: f64) -> f64
    ensures { result ≡ nearest_by_one_sum t }
{
    (t + WHOLE) - WHOLE
}

// 0 where the square of t is below the limit and t is no half, which the sum may take down, and nowhere else.
fn unsure(t: f64, limit: f64) -> u64
    ensures { (result ≤ 2) × (result ≡ 0 → SureBelow limit t) × (SureBelow limit t → result ≡ 0) }
{
    let d = t - whole(t);
    not_below(t * t, limit) + not_below(d * d, 0.25)
}

// x less the nearest number of turns, up to 2^50 of them. Adding 0 makes 0 of -0.
pub fn turn_one(x: f32) -> Tried<f64>
    ensures { (result.bad ≤ 2) × (result.bad ≡ 0 → result.value ≡ reduce2pi x) }
{
    let w = rounding::widen(x) + 0.0;
    let t = w * INV_PI2;
    let value = trig::less_turns(w, whole(t));
    let bad = unsure(t, MOST);
    Tried { value, bad }
}

// The number of quarter turns nearest to r, below 2.5.
pub fn quarter_one(r: f64) -> Tried<f64>
    ensures { (result.bad ≤ 2) × (result.bad ≡ 0 → sine_at result.value (r ⊟ result.value ⊠ FRAC·PI·2) ≡ sin_reduced r) }
{
    let t = r / FRAC_PI_2;
    let value = whole(t);
    let bad = unsure(t, 6.25);
    Tried { value, bad }
}

fn poly_at(q: f64, a: f64) -> f64
    ensures { result ≡ poly_at q a }
{
    let s = trig::sin_poly(a);
    let c = trig::cos_poly(a);
    pick(q * q == 1.0, c, s)
}

fn sine_at(q: f64, a: f64) -> f64
    ensures { result ≡ sine_at q a }
{
    let p = poly_at(q, a);
    let d = q - 0.5;
    pick(d * d < 2.0, p, -p)
}

// The sine of r, q quarter turns from zero.
pub fn sine_one(r: f64, q: f64) -> f64
    ensures { result ≡ sine_at q (r ⊟ q ⊠ FRAC·PI·2) }
{
    sine_at(q, r - q * FRAC_PI_2)
}

// x below 2 in size, and 0 for any other.
fn within(x: f64) -> f64
    ensures { (T (not (is_nan result))) × (lt (x ⊠ x) d4 ≡ true → result ≡ x) }
{
    if x * x < 4.0 { x } else { 0.0 }
}

// The size that a pattern stands for, to the nearest f32, a tie to the even one: a sum with 2^29 times its power of two has no
// digits after an f32's. Below the smallest normal f32 the last digit's place stays.
fn rounded(size: u64) -> f64
    requires { size < 2 ^ 62 }
    ensures { result ≡ narrow_of (of_bits binary64 size) }
{
    let w = f64::from_bits(size);
    let unit = f64::from_bits(size - size % 0x10_0000_0000_0000 + 0x1d0_0000_0000_0000);
    let k = pick(unit > LEAST, unit, LEAST);
    (w + k) - k
}

// x narrowed, by its size and its sign.
pub fn narrow_one(x: f64) -> Tried<f32>
    ensures { (result.bad ≤ 2) × (result.bad ≡ 0 → result.value ≡ narrow_of x) }
{
    let v = within(x);
    let bits = f64::to_bits(v);
    let z = rounded(bits % 0x4000_0000_0000_0000);
    let one = f64::from_bits(((bits >> 63) << 63) + 0x3ff0_0000_0000_0000);
    let value = (z * one) as f32;
    let bad = not_below(x * x, 4.0);
    Tried { value, bad }
}
