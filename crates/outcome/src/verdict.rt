// What a call's tests find, test after test.
ghost use Rattle.std.specs.Prelude.{◌≡◌, cond, Ok, Err};
ghost use Rattle.outcome.specs.First.{first_after, outside};
ghost use Rattle.outcome.specs.Domain.{domain_tests};

use crate::answer::Refusal;

// This refusal, where its test holds.
pub fn refuse_if(test: bool, refusal: Refusal) -> Result<(), Refusal>
    ensures { result ≡ cond test (Err refusal) (Ok tt) }
{
    if test {
        return Err(refusal);
    }
    Ok(())
}

// Whether x lies outside low to high.
pub fn outside(x: u32, low: u32, high: u32) -> bool
    ensures { result ≡ outside x low high }
{
    if x < low {
        return true;
    }
    x > high
}

// 1 and 2, for an output of n frames.
pub fn domain_verdict(rate: u32, n: usize) -> Result<(), Refusal>
    ensures { result ≡ first_after (Ok tt) (domain_tests rate n) }
{
    refuse_if(outside(rate, 8000, 192000), Refusal::Rate)?;
    refuse_if(n > 16777216, Refusal::Frames)
}
