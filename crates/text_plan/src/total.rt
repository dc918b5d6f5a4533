// The planning call of a text score.
ghost use Rattle.std.specs.Prelude.{◌≡◌};
ghost use Rattle.session.specs.Opened.{session_at};
ghost use Rattle.text_read.specs.Text.{seq_of};
ghost use Rattle.text_judge.specs.Call.{call_of};
ghost use Rattle.plan.specs.Plan.{plan_on};
ghost use Rattle.text_plan.specs.TextPlan.{plan_said};

use session::Session;
use text_read::TextScore;

// On station 0 of the session that the score's G line opens.
pub(crate) fn plan_score(score: TextScore, words: &[u32]) -> Result<(TextScore, u64), u32>
    ensures { result ≡ plan_said score (plan_on (session_at score.seed score.draw) 0 (call_of (seq_of score.numbers score.env score.sound) words.now score.numbers.n)) }
{
    let numbers = score.numbers;
    let lane = [0.0f32; 1];
    let session = Session::open(score.seed, score.draw);
    let seq = score.seq();
    let plan = plan::planned_draws(session, 0, seq, words, &lane[..0], numbers.n as usize);
    match plan.outcome {
        Ok(draws) => Ok((score, draws)),
        Err(refusal) => Err(refusal.number()),
    }
}
