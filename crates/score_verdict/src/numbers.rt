// The refusals of a score's numbers.
ghost use Rattle.std.specs.Prelude.{◌≡◌, Ok};
ghost use Rattle.outcome.specs.First.{first_after};
ghost use Rattle.score.specs.Refusals.{map_tests, number_tests};

use outcome::{Refusal, outside, refuse_if};
use score::Timing;
use tempo::TempoMap;

// 31 and 32. The order of beats is looked at once their numerators are known to be small.
fn map_verdict(map: TempoMap) -> Result<(), Refusal>
    ensures { result ≡ first_after (Ok tt) (map_tests map) }
{
    refuse_if(!map.in_domain(), Refusal::TempoPoints)?;
    refuse_if(!map.in_order(), Refusal::TempoOrder)
}

// 1, 2, 3, 4, 31, 32 and 5, for an output of n frames.
pub(crate) fn numbers_verdict(timing: Timing, n: usize) -> Result<(), Refusal>
    ensures { result ≡ first_after (Ok tt) (number_tests timing n) }
{
    outcome::domain_verdict(timing.rate, n)?;
    refuse_if(
        !float::within_f32(timing.tempo, 1.0, 1000.0),
        Refusal::Tempo,
    )?;
    refuse_if(outside(timing.steps_per_beat, 1, 64), Refusal::StepsPerBeat)?;
    map_verdict(timing.tempo_map)?;
    refuse_if(!float::within_f32(timing.swing, 0.0, 1.0), Refusal::Groove)?;
    refuse_if(
        !float::within_f32(timing.humanize, 0.0, 1.0),
        Refusal::Groove,
    )
}
