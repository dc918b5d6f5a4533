// A float as an integer, as Rust's `as` has it: toward zero, to the nearest end of the range where
// it is out of it, and 0 at a NaN.
ghost use Rattle.std.specs.Prelude.{◌≡◌};
ghost use Rattle.std.specs.Float.Ieee.{to_unsigned, to_signed};

// A NaN fails the first test.
pub fn f32_to_usize(x: f32) -> usize
    ensures { result ≡ to_unsigned 64 x }
{
    if x > -1.0 {
        if x < 18446744073709551616.0 {
            return std::num::truncating_f32_to_u64(x) as usize;
        }
        return usize::MAX;
    }
    0
}

// A NaN fails the first test.
pub fn f64_to_usize(x: f64) -> usize
    ensures { result ≡ to_unsigned 64 x }
{
    if x > -1.0 {
        if x < 18446744073709551616.0 {
            return std::num::truncating_f64_to_u64(x) as usize;
        }
        return usize::MAX;
    }
    0
}

// A NaN fails the first and the last test.
pub fn f32_to_i32(x: f32) -> i32
    ensures { result ≡ to_signed 31 x }
{
    if x >= -2147483648.0 {
        if x < 2147483648.0 {
            return std::num::truncating_f32_to_i64(x) as i32;
        }
        return i32::MAX;
    }
    if x < 0.0 {
        return i32::MIN;
    }
    0
}

// A NaN fails the first and the last test.
pub fn f64_to_i64(x: f64) -> i64
    ensures { result ≡ to_signed 63 x }
{
    if x >= -9223372036854775808.0 {
        if x < 9223372036854775808.0 {
            return std::num::truncating_f64_to_i64(x);
        }
        return i64::MAX;
    }
    if x < 0.0 {
        return i64::MIN;
    }
    0
}
