// A score's total of draws, or why there is none.
ghost use Rattle.std.specs.Prelude.{◌≡◌};
ghost use Rattle.plan.specs.Plan.{unlent, planned_at};

use outcome::Refusal;
use score::{Lent, Seq};

// On a station whose count is `draw`. The notes are added in list order: the sum is that of the sorted list.
// Nothing is lent, so that the lengths are those that 20 and 21 let pass.
pub(crate) fn total_draws(
    draw: u64,
    seq: Seq,
    notes: &[u32],
    lane: &[f32],
    n: usize,
) -> Result<u64, Refusal>
    ensures { result ≡ planned_at (unlent seq notes.now lane.now n) draw }
{
    let lent = Lent {
        n,
        room: n,
        string: 9600,
    };
    score_verdict::score_verdict(seq, notes, lane, lent)?;
    score_draws::score_draws(seq, notes, lane, lent, u64::MAX - draw).ok_or(Refusal::Draws)
}
