// x to the power y, as exp(y·ln x) for a positive x.
ghost use Rattle.std.specs.Prelude.{◌≡◌};
ghost use Rattle.det.specs.Pow.{powf64};

use crate::exponential::exp;
use crate::logarithm::ln;
use crate::special::{infinity, not_a_number};

// The exponent is looked at first: with y = 0 even a NaN gives 1. At x = 0 the sign of y decides,
// and a NaN as y gives infinity. A negative x gives a NaN.
pub fn powf(x: f64, y: f64) -> f64
    ensures { result ≡ powf64 x y }
{
    if y == 0.0 {
        return 1.0;
    }
    if x == 0.0 {
        if y > 0.0 {
            return 0.0;
        }
        return infinity();
    }
    if x < 0.0 {
        return not_a_number();
    }
    exp(y * ln(x))
}
