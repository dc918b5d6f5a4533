// What a C call returns as its number: a length, or minus a refusal's number.
#![tactic(auto)]

ghost use Rattle.std.specs.Prelude.{◌≡◌, ◌^◌, ◌<◌, pos, neg_ℤ};

// A slice has fewer than 2^63 values.
pub fn length_as_i64(length: usize) -> i64
    requires { length < 2 ^ 63 }
    ensures { result ≡ pos length }
{
    length as i64
}

pub fn minus_number(number: u32) -> i64
    ensures { result ≡ neg_ℤ (pos number) }
{
    -(number as i64)
}
