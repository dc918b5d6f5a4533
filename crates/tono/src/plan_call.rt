// The total of draws of a text score, for a host's screen.
ghost use Rattle.tono_text.specs.Planned.{PlanReturned};

// Puts the draws that the text score `score` would make into `draws`, and returns 0. A refused score returns minus the
// refusal's number, and changes nothing. The draw at which each note begins is still reckoned in list order.
#[unsafe(no_mangle)]
pub extern "C" fn tono_plan(score: &[u8], draws: &mut u64) -> i64
    ensures { PlanReturned score.now draws.old result draws.new }
{
    tono_text::plan(score, draws)
}
