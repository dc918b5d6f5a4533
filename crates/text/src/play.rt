// The score call of a text score.
ghost use Rattle.std.specs.Prelude.{◌≤◌};
ghost use Rattle.text.specs.Listing.{played};
ghost use Rattle.text_read.specs.Text.{seq_of};
ghost use Rattle.text_reply.specs.Reply.{Fitted};

use session::{Session, StationAnswer};
use text_judge::{frames_buffer, string_buffer};
use text_read::TextScore;
use text_reply::reply_answer;

// Plays what a text says on station 0 of the session that its G line opens, and prints the listing at the
// start of `reply`, where it fits.
pub(crate) fn play_score(score: TextScore, notes: &[u32], reply: &mut [u8]) -> Option<usize>
    requires { score.numbers.n ≤ 2048 }
    ensures { Fitted (played (seq_of score.numbers score.env score.sound) notes.now score.numbers.n score.seed score.draw) reply.old result reply.new }
{
    // before the buffers, so that what is needed only to make it may lie where they do: tono.h says how much stack the call takes
    let seq = score.seq();
    let lane = [0.0f32; 1];
    let mut frames = frames_buffer();
    let mut note_buf = frames_buffer();
    let mut string = string_buffer();
    let session = Session::open(score.seed, score.draw);
    let numbers = score.numbers;
    let n = numbers.n as usize;
    let out = &mut frames[..n];
    let answer = seq::render_seq(
        session,
        0,
        seq,
        notes,
        &lane[..0],
        out,
        &mut note_buf,
        &mut string,
    );
    let after = answer.session;
    let station = after.station(0);
    let outcome = answer.outcome;
    reply_answer(reply, StationAnswer { station, outcome }, &frames[..n])
}
