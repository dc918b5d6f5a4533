// Choices and tests without a branch, for the passes over a block: both ways of a choice are worked out, and no test is
// jumped over.
#![tactic(auto)]

ghost use Rattle.std.specs.Prelude.{◌≡◌, cond, true, ◌≤◌};
ghost use Rattle.std.specs.Float.Ieee.{lt};

pub fn pick(t: bool, x: f64, y: f64) -> f64
    ensures { result ≡ cond t x y }
{
    if t { x } else { y }
}

// A test: 0 where it is passed, 1 where it is not.
pub fn not_below(x: f64, limit: f64) -> u64
    ensures { (result ≤ 1) × (result ≡ 0 → lt x limit ≡ true) × (result ≡ cond (lt x limit) 0 1) }
{
    if x < limit { 0 } else { 1 }
}
