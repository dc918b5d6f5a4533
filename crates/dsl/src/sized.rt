// Numbers of the domain.
ghost use Rattle.std.specs.Prelude.{◌≡◌};
ghost use Rattle.dsl.specs.Sized.{sized_of, all_sized};

// Whether x is finite and of magnitude at most 65,536. A NaN fails the first test.
pub fn is_sized(x: f32) -> bool
    ensures { result ≡ sized_of x }
{
    if x <= 65536.0 {
        return x >= -65536.0;
    }
    false
}

// Every value is tested, so that the loop has one way out and several values are tested at once.
pub fn all_sized(xs: &[f32]) -> bool
    ensures { result ≡ all_sized xs.now }
{
    let mut all = true;
    for x in xs {
        all = all & is_sized(*x);
    }
    all
}
