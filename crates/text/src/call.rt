// The text call.
ghost use Rattle.text.specs.Reply.{Replied};

use crate::play::play_score;
use text_judge::{judge_text, words_buffer};
use text_reply::reply_refusal;

// Writes the listing of a text score at the start of `reply`; the bytes after it stay. Where it does
// not fit, no byte changes.
pub fn play_text(text: &[u8], reply: &mut [u8]) -> Option<usize>
    ensures { Replied text.now reply.old result reply.new }
{
    let mut words = words_buffer();
    match judge_text(text, &mut words) {
        Err(number) => reply_refusal(reply, number),
        Ok(score) => {
            let notes = &words[..score.count * 5];
            play_score(score, notes, reply)
        }
    }
}
