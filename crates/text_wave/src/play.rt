// The score call of a text score.
ghost use Rattle.std.specs.Prelude.{◌≤◌, length};
ghost use Rattle.outcome.specs.Answer.{seen};
ghost use Rattle.text_read.specs.Text.{seq_of};
ghost use Rattle.text_wave.specs.TextFile.{result_file, played_file, Filed};

use crate::frames::write_frames;
use session::{Answer, Session};
use text_judge::{frames_buffer, string_buffer};
use text_read::TextScore;

// A score call's answer and the frames that it left.
fn write_answer(rate: u32, answer: Answer, frames: &[f32], file: &mut [u8]) -> Result<usize, u32>
    requires { length frames.now ≤ 2048 }
    ensures { Filed (result_file rate (length file.old) (seen answer.outcome frames.now)) file.old result file.new }
{
    let outcome = answer.outcome;
    match outcome {
        Ok(_) => write_frames(rate, frames, file),
        Err(refusal) => Err(refusal.number()),
    }
}

// Plays what a text says on station 0 of the session that its G line opens, and writes the frames.
pub(crate) fn play_file(score: TextScore, notes: &[u32], file: &mut [u8]) -> Result<usize, u32>
    requires { score.numbers.n ≤ 2048 }
    ensures { Filed (played_file (seq_of score.numbers score.env score.sound) notes.now score.numbers.n score.seed score.draw (length file.old)) file.old result file.new }
{
    let lane = [0.0f32; 1];
    let mut frames = frames_buffer();
    let mut note_buf = frames_buffer();
    let mut string = string_buffer();
    let session = Session::open(score.seed, score.draw);
    let numbers = score.numbers;
    let n = numbers.n as usize;
    let seq = score.seq();
    let out = &mut frames[..n];
    let answer = seq::render_seq(
        session,
        0,
        seq,
        notes,
        &lane[..0],
        out,
        &mut note_buf,
        &mut string,
    );
    let timing = seq.timing;
    write_answer(timing.rate, answer, &frames[..n], file)
}
