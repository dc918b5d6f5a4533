// Floats as bit patterns.
use crate::fields::{u32_field, u64_field};

// The value of a pattern. Every NaN pattern gives the NaN of 0 / 0, where `f64::from_bits` is
// undefined.
fn f64_from_bits(pattern: u64) -> f64 {
    if pattern % 0x8000_0000_0000_0000 > 0x7ff0_0000_0000_0000 {
        return 0.0f64 / 0.0;
    }
    f64::from_bits(pattern)
}

// The pattern of x. Every NaN gives one pattern, where `f32::to_bits` is undefined.
pub(crate) fn f32_bits(x: f32) -> u32 {
    if x != x {
        return 0x7fc0_0000;
    }
    f32::to_bits(x)
}

pub(crate) fn f64_bits(x: f64) -> u64 {
    if x != x {
        return 0x7ff8_0000_0000_0000;
    }
    f64::to_bits(x)
}

// The f32 whose pattern is the low half of the number in field k.
pub fn f32_field(line: &[u8], k: usize) -> f32 {
    rounding::f32_from_bits(u32_field(line, k))
}

// The f64 whose pattern is the number in field k.
pub fn f64_field(line: &[u8], k: usize) -> f64 {
    f64_from_bits(u64_field(line, k))
}
