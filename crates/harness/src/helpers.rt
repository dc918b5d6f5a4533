// The float helpers and the generator.
ghost use Rattle.std.specs.Prelude.{◌≡◌};
ghost use Rattle.std.specs.Float.{binary32};
ghost use Rattle.std.specs.Float.Ieee.{to_unsigned, to_signed};
ghost use Rattle.ieee.specs.Narrow.{narrow_of};
ghost use Rattle.ieee.specs.Order.{max_of};
ghost use Rattle.ieee.specs.Remainder.{rem_of};
ghost use Rattle.ieee.specs.Root.{sqrt_of};
ghost use Rattle.ieee.specs.Sign.{abs_of, signum_of};
ghost use Rattle.ieee.specs.Whole.{floor_of, trunc_of, round_of, fract_of};
ghost use Rattle.rng.specs.SplitMix64.{next};
ghost use Rattle.rng.specs.Draw.{bi_from};

use rng::Rng;

#[unsafe(no_mangle)]
pub extern "C" fn h_narrow(x: f64) -> f32
    ensures { result ≡ narrow_of x }
{
    rounding::narrow(x)
}

#[unsafe(no_mangle)]
pub extern "C" fn h_widen(x: f32) -> f64
    ensures { result ≡ x }
{
    rounding::widen(x)
}

#[unsafe(no_mangle)]
pub extern "C" fn h_sqrt(x: f32) -> f32
    ensures { result ≡ sqrt_of x }
{
    rounding::sqrt_f32(x)
}

#[unsafe(no_mangle)]
pub extern "C" fn h_floor(x: f32) -> f32
    ensures { result ≡ floor_of x }
{
    float::floor_f32(x)
}

#[unsafe(no_mangle)]
pub extern "C" fn h_trunc(x: f32) -> f32
    ensures { result ≡ trunc_of x }
{
    float::trunc_f32(x)
}

#[unsafe(no_mangle)]
pub extern "C" fn h_round(x: f32) -> f32
    ensures { result ≡ round_of x }
{
    float::round_f32(x)
}

#[unsafe(no_mangle)]
pub extern "C" fn h_abs(x: f32) -> f32
    ensures { result ≡ abs_of x }
{
    float::abs_f32(x)
}

#[unsafe(no_mangle)]
pub extern "C" fn h_fract(x: f32) -> f32
    ensures { result ≡ fract_of binary32 x }
{
    float::fract_f32(x)
}

#[unsafe(no_mangle)]
pub extern "C" fn h_floor64(x: f64) -> f64
    ensures { result ≡ floor_of x }
{
    float::floor_f64(x)
}

#[unsafe(no_mangle)]
pub extern "C" fn h_round64(x: f64) -> f64
    ensures { result ≡ round_of x }
{
    float::round_f64(x)
}

#[unsafe(no_mangle)]
pub extern "C" fn h_trunc64(x: f64) -> f64
    ensures { result ≡ trunc_of x }
{
    float::trunc_f64(x)
}

// Rust's `as usize`.
#[unsafe(no_mangle)]
pub extern "C" fn h_usize(x: f32) -> usize
    ensures { result ≡ to_unsigned 64 x }
{
    float::f32_to_usize(x)
}

// Rust's `as usize` of an f64.
#[unsafe(no_mangle)]
pub extern "C" fn h_usize64(x: f64) -> usize
    ensures { result ≡ to_unsigned 64 x }
{
    float::f64_to_usize(x)
}

// Rust's `as i32`.
#[unsafe(no_mangle)]
pub extern "C" fn h_i32(x: f32) -> i32
    ensures { result ≡ to_signed 31 x }
{
    float::f32_to_i32(x)
}

#[unsafe(no_mangle)]
pub extern "C" fn h_signum(x: f32) -> f32
    ensures { result ≡ signum_of x }
{
    float::signum_f32(x)
}

// Rust's `%`.
#[unsafe(no_mangle)]
pub extern "C" fn h_rem(x: f32, y: f32) -> f32
    ensures { result ≡ rem_of x y }
{
    remainder::rem_f32(x, y)
}

// 01's max, of an f64.
#[unsafe(no_mangle)]
pub extern "C" fn h_max64(a: f64, b: f64) -> f64
    ensures { result ≡ max_of a b }
{
    float::max_f64(a, b)
}

// Rust's `as i64`.
#[unsafe(no_mangle)]
pub extern "C" fn h_i64(x: f64) -> i64
    ensures { result ≡ to_signed 63 x }
{
    float::f64_to_i64(x)
}

// What `next_u64` gives at a state.
#[unsafe(no_mangle)]
pub extern "C" fn h_draw(state: u64) -> u64
    ensures { result ≡ next state }
{
    let d = Rng::new(state).next_u64();
    d.value
}

// What `bi` gives at a state.
#[unsafe(no_mangle)]
pub extern "C" fn h_bi(state: u64) -> f32
    ensures { result ≡ bi_from state }
{
    let d = Rng::new(state).bi();
    d.value
}
