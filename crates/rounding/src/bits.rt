// A float from its bit pattern.
ghost use Rattle.std.specs.Prelude.{◌≡◌, ◌+◌, ◌^◌, ◌≤◌, if◌then◌else◌, from_bits};
ghost use Rattle.std.specs.Float.{binary32};

// The value of a pattern. Every NaN pattern gives the NaN of 0 / 0, where `f32::from_bits` is
// undefined.
pub fn f32_from_bits(pattern: u32) -> f32
    ensures { result ≡ from_bits binary32 pattern }
{
    if pattern % 0x8000_0000 > 0x7f80_0000 {
        return 0.0f32 / 0.0;
    }
    f32::from_bits(pattern)
}

// The value of a sign and a pattern without its sign that is at most the infinity's.
pub fn signed_f32(sign: bool, pattern: u32) -> f32
    requires { pattern ≤ 0x7f80_0000 }
    ensures { result ≡ from_bits binary32 ((if sign then 2 ^ 31 else 0) + pattern) }
{
    if sign {
        f32::from_bits(pattern + 0x8000_0000)
    } else {
        f32::from_bits(pattern)
    }
}
