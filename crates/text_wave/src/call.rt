// The call on a text.
ghost use Rattle.std.specs.Prelude.{length};
ghost use Rattle.text_wave.specs.TextFile.{text_file, Filed};

use crate::play::play_file;
use text_judge::{judge_text, words_buffer};

// Writes the WAVE file of a text score's frames at the start of `file`; the bytes after it stay. A
// score that is refused, and a file that does not fit, change nothing. No such file has more than
// 8,250 bytes.
pub fn wave_text(text: &[u8], file: &mut [u8]) -> Result<usize, u32>
    ensures { Filed (text_file text.now (length file.old)) file.old result file.new }
{
    let mut words = words_buffer();
    let score = judge_text(text, &mut words)?;
    let notes = &words[..score.count * 5];
    play_file(score, notes, file)
}
