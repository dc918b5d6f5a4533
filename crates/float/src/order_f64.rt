// `order` at f64.
ghost use Rattle.std.specs.Prelude.{◌≡◌};
ghost use Rattle.ieee.specs.Order.{max_of};

// a if it is above b, else b: of two zeros and at a NaN, b.
pub fn max_f64(a: f64, b: f64) -> f64
    ensures { result ≡ max_of a b }
{
    if a > b { a } else { b }
}
