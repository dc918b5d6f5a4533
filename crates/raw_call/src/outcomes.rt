// The numbers of an outcome.
ghost use Rattle.std.specs.Prelude.{◌≡◌, []};
ghost use Rattle.outcome.specs.Answer.{seen, number_of_result, reported};

use outcome::Refusal;

// A refusal's number, 0 for an accepted call.
pub fn number_of(outcome: Result<u64, Refusal>) -> u32
    ensures { result ≡ number_of_result (seen outcome []) }
{
    match outcome {
        Ok(_) => 0,
        Err(refusal) => refusal.number(),
    }
}

// The draws made, 0 for a refusal.
pub fn draws_of(outcome: Result<u64, Refusal>) -> u64
    ensures { result ≡ reported (seen outcome []) }
{
    outcome.unwrap_or(0)
}
