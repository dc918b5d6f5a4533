// The tests of a text: 16, 15 and 16, before all others.
ghost use Rattle.text_judge.specs.Judged.{Judges};

use text_read::TextScore;

// Reads a text score, and stores the words of its notes, five a note, at the start of `words`. Where they
// do not fit, or the text is not of the form, no word changes. 256 notes have 1,280 words. The error is the
// number that refuses the text, as `text_refusal` states it. It stays a number, since the calls on texts pass it
// on beside the numbers of a score call, of a page and of a file, which no enum of this crate holds; C gets that number.
pub fn judge_text(text: &[u8], words: &mut [u32]) -> Result<TextScore, u32>
    ensures { Judges text.now words.old result words.new }
{
    if text.len() > 65536 {
        return Err(16);
    }
    let Some(score) = text_read::read_score(text, words) else {
        return Err(15);
    };
    let numbers = score.numbers;
    if numbers.n > 2048 {
        return Err(16);
    }
    if score.count > 256 {
        return Err(16);
    }
    Ok(score)
}
