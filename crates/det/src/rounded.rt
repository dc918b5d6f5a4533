// A rounded f64 as an i64, as Rust's `as` has it. Between -2^52 and 2^52 Rattle's own cast serves,
// which is one instruction. It takes no -0, so 0 is added first. Past that, and at a NaN, the
// saturating cast does.
ghost use Rattle.std.specs.Prelude.{◌≡◌, T};
ghost use Rattle.std.specs.Float.Ieee.{to_signed};
ghost use Rattle.det.specs.Rounded.{no_fraction};

// k as i64.
pub(crate) fn rounded_to_i64(k: f64) -> i64
    requires { T (no_fraction k) }
    ensures { result ≡ to_signed 63 k }
{
    if k > -4503599627370496.0 {
        if k < 4503599627370496.0 {
            return (k + 0.0) as i64;
        }
    }
    float::f64_to_i64(k)
}
