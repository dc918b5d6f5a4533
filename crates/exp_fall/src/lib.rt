// e^x of an f32 as voices and drums ask for it in each frame: of a decay, whose argument lies below zero and not far from
// it. There nothing that comes out needs a test.
#![tactic(auto)]

ghost use Rattle.std.specs.Prelude.{◌≡◌};
ghost use Rattle.ieee.specs.Narrow.{narrow_of};
ghost use Rattle.det.specs.Exp.{exp64};
ghost use Rattle.det.specs.Single.{expf_of};
ghost use Rattle.exp_fall.specs.Falling.{Falling};

const INV_LN2: f64 = 1.44269504088896340735992468100189214; // LOG2_E, 3ff71547652b82fe

// The value lies between 2^-124 and 2, so that its f32 has all its digits.
pub fn expf_falling(x: f64) -> f32
    requires { Falling x }
    ensures { result ≡ narrow_of (exp64 x) }
{
    rounding::narrow_normal(false, f64::to_bits(det::exp_low(x)))
}

pub fn expf(x: f32) -> f32
    ensures { result ≡ expf_of x }
{
    if -x < 80.0 {
        let z = x as f64;
        let a = -(z * INV_LN2);
        if a > 0.0 {
            if a < ((a + 4503599627370496.0) - 4503599627370496.0) + 0.5 {
                return expf_falling(z);
            }
        }
    }
    det::expf(x)
}
