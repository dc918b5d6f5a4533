// The greatest common divisor.
ghost use Rattle.beat.specs.Gcd.{Gcd};

// Euclid's steps.
pub(crate) fn gcd(x: u64, y: u64) -> u64
    ensures { Gcd x y result }
{
    let mut a = x;
    let mut b = y;
    while b != 0 {
        let t = a % b;
        a = b;
        b = t;
    }
    a
}
