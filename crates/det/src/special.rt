// The two values that no literal writes.
ghost use Rattle.std.specs.Prelude.{◌≡◌, false};
ghost use Rattle.std.specs.Float.{nan, inf};

pub(crate) fn infinity() -> f64
    ensures { result ≡ inf false }
{
    1.0f64 / 0.0
}

pub(crate) fn not_a_number() -> f64
    ensures { result ≡ nan }
{
    0.0f64 / 0.0
}
