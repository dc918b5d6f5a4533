// A score call's answer, printed where it fits.
ghost use Rattle.std.specs.Prelude.{◌≤◌, length};
ghost use Rattle.outcome.specs.Answer.{seen};
ghost use Rattle.text_listing.specs.Lines.{listing_of, printed_r};
ghost use Rattle.text_reply.specs.Shown.{shown_at};
ghost use Rattle.text_reply.specs.Reply.{Fitted};

use session::StationAnswer;
use text_listing::{listing_length, put_listing, put_refusal, refusal_length};

// The line of a refusal.
pub fn reply_refusal(reply: &mut [u8], number: u32) -> Option<usize>
    ensures { Fitted (printed_r number) reply.old result reply.new }
{
    if reply.len() < refusal_length(number) {
        return None;
    }
    Some(put_refusal(reply, number))
}

// A listing of at most 2,048 frames.
pub fn reply_frames(reply: &mut [u8], state: u64, draw: u64, frames: &[f32]) -> Option<usize>
    requires { length frames.now ≤ 2048 }
    ensures { Fitted (listing_of state draw frames.now) reply.old result reply.new }
{
    if reply.len() < listing_length(draw, frames.len()) {
        return None;
    }
    Some(put_listing(reply, state, draw, frames))
}

// An answer and the frames that the call left.
pub fn reply_answer(reply: &mut [u8], answer: StationAnswer, frames: &[f32]) -> Option<usize>
    requires { length frames.now ≤ 2048 }
    ensures { Fitted (shown_at answer.station.rng.0 answer.station.draw (seen answer.outcome frames.now)) reply.old result reply.new }
{
    let outcome = answer.outcome;
    match outcome {
        Ok(_) => {
            let station = answer.station;
            let rng = station.rng;
            reply_frames(reply, rng.state(), station.draw, frames)
        }
        Err(refusal) => reply_refusal(reply, refusal.number()),
    }
}
