// A position or a duration as a fraction of beats.
ghost use Rattle.std.specs.Prelude.{◌≡◌, ◌<◌, ◌≤◌, max, unsigned_abs};
ghost use Rattle.beat.specs.Beat.{beat64, Reduced, lt_beat};

use crate::gcd::gcd;

// num / den. The numerator carries the sign.
#[derive(Clone, Copy)]
pub struct Beat {
    pub num: i64,
    pub den: u32,
}

fn divided(num: i64, den: u32) -> Beat
    requires num_bound { unsigned_abs num ≤ 1000000000 }
    requires den_nonzero { 0 < den }
    ensures { Reduced num den result }
{
    let g = gcd(num.unsigned_abs(), den as u64);
    let top = num / (g as i64);
    let bottom = (den as u64) / g;
    Beat {
        num: top,
        den: bottom as u32,
    }
}

impl Beat {
    // num / den in lowest terms, zero as 0 / 1. A denominator of 0 counts as 1.
    pub fn new(num: i64, den: u32) -> Beat
        requires { unsigned_abs num ≤ 1000000000 }
        ensures { Reduced num (max den 1) result }
    {
        if den == 0 {
            return divided(num, 1);
        }
        divided(num, den)
    }

    // The nearest f64 to num over the nearest f64 to den, rounded.
    pub fn to_f64(self) -> f64
        ensures { result ≡ beat64 self }
    {
        std::num::nearest_i64_to_f64(self.num) / std::num::nearest_u64_to_f64(self.den as u64)
    }

    // Whether this beat comes before the other, as fractions. The products fit 64 bits.
    pub fn lt(self, other: Beat) -> bool
        requires { (unsigned_abs self.num ≤ 1000000000) × (unsigned_abs other.num ≤ 1000000000) }
        ensures { result ≡ lt_beat self other }
    {
        let left = self.num * (other.den as i64);
        let right = other.num * (self.den as i64);
        left < right
    }
}
