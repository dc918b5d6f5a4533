// A pattern without its sign is a significand times 2^place, in units of the smallest f32, 2^-149.
ghost use Rattle.std.specs.Prelude.{◌≡◌, ◌^◌, ◌<◌};
ghost use Rattle.std.specs.Float.{binary32};
ghost use Rattle.std.specs.Float.Ieee.{low};
ghost use Rattle.std.specs.Float.Ieee.Exact.{HasValue};
ghost use Rattle.remainder.specs.Parts.{significand_of, place_of};

use rounding::signed_f32;

// The digits, with the leading one where the exponent's field is not 0.
pub fn significand(pattern: u32) -> u64
    ensures { result ≡ significand_of pattern }
{
    let digits = (pattern % 0x80_0000) as u64;
    if pattern < 0x80_0000 {
        return digits;
    }
    digits + 0x80_0000
}

// The exponent's field, which counts from 1 where it is not 0.
pub fn place(pattern: u32) -> u64
    ensures { result ≡ place_of pattern }
{
    if pattern < 0x80_0000 {
        return 0;
    }
    (pattern / 0x80_0000) as u64 - 1
}

// 2^k units with a sign: below 2^23 units a digit of a subnormal, from there on an exponent.
pub fn unit_f32(negative: bool, k: u64) -> f32
    requires { k < 254 }
    ensures { HasValue result negative (2 ^ k) (2 ^ low binary32) }
{
    if k < 23 {
        return signed_f32(negative, 1u32 << (k as u32));
    }
    signed_f32(negative, (k as u32 - 22) * 0x80_0000)
}
