// The planning call.
ghost use Rattle.plan.specs.Plan.{unlent, Planned};

use crate::total::total_draws;
use outcome::Refusal;
use score::Seq;
use session::Session;

// What a planning call answers: the session as it was, and the draws that the score call would make or why it would be
// refused.
#[derive(Clone, Copy)]
pub struct Plan {
    pub session: Session,
    pub outcome: Result<u64, Refusal>,
}

// The draws of a score call with this session and input and an output of n frames, which is not made. It is refused as
// that call is, but for 20 and 21, which are about buffers. The draw at which each note begins is still reckoned in list
// order.
pub fn planned_draws(
    session: Session,
    station: u32,
    seq: Seq,
    notes: &[u32],
    lane: &[f32],
    n: usize,
) -> Plan
    ensures { Planned session station (unlent seq notes.now lane.now n) result }
{
    let Some(one) = session.named(station) else {
        return Plan {
            session,
            outcome: Err(Refusal::NoStation),
        };
    };
    let outcome = total_draws(one.draw, seq, notes, lane, n);
    Plan { session, outcome }
}
