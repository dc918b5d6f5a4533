// All refusals of a score call but 22, in their order.
ghost use Rattle.std.specs.Prelude.{◌≡◌, ◌++◌, Ok};
ghost use Rattle.outcome.specs.First.{first_after};
ghost use Rattle.score.specs.Score.{score_of};
ghost use Rattle.score.specs.Refusals.{voice_tests, lent_tests, list_tests, refusal};

use crate::notes::notes_verdict;
use crate::numbers::numbers_verdict;
use outcome::{Refusal, outside, refuse_if};
use score::{Lent, Seq};

// 6, 20, 21, 35, 7 and 11.
fn lists_verdict(seq: Seq, notes: &[u32], lane: &[f32], lent: Lent) -> Result<(), Refusal>
    ensures { result ≡ first_after (Ok tt) (voice_tests seq ++ (lent_tests (score_of seq notes.now lane.now lent)
        ++ list_tests (score_of seq notes.now lane.now lent))) }
{
    refuse_if(!dsl::knobs_sized(seq.voice), Refusal::Knobs)?;
    refuse_if(!dsl::is_sized(seq.duty), Refusal::Knobs)?;
    refuse_if(!dsl::env_sized(seq.env), Refusal::Knobs)?;
    refuse_if(lent.room < lent.n, Refusal::NoteBuffer)?;
    refuse_if(lent.string < 9600, Refusal::StringBuffer)?;
    refuse_if(outside(seq.hop, 1, 4096), Refusal::Hop)?;
    refuse_if(notes.len() % 5 != 0, Refusal::Words)?;
    refuse_if(!dsl::all_sized(lane), Refusal::Lane)
}

pub fn score_verdict(seq: Seq, notes: &[u32], lane: &[f32], lent: Lent) -> Result<(), Refusal>
    ensures { result ≡ refusal (score_of seq notes.now lane.now lent) }
{
    numbers_verdict(seq.timing, lent.n)?;
    lists_verdict(seq, notes, lane, lent)?;
    notes_verdict(seq, notes, lane, lent)
}
