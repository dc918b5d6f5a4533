// The call on a text.
ghost use Rattle.std.specs.Prelude.{◌≤◌, length};
ghost use Rattle.text_plan.specs.TextPlan.{Told};

use crate::total::plan_score;
use text_judge::judge_text;
use text_read::TextScore;

// Plans a text score, and stores the words of its notes, five a note, at the start of `words`.
pub fn plan_text(text: &[u8], words: &mut [u32]) -> Result<(TextScore, u64), u32>
    requires { 1280 ≤ length words.old }
    ensures { Told text.now words.old result words.new }
{
    let score = judge_text(text, words)?;
    plan_score(score, &words[..score.count * 5])
}
