// Whether the draws of a score pass what is left.
#![tactic(auto)]

ghost use Rattle.std.specs.Prelude.{◌≡◌, ◌/◌, ◌<◌, length, leb, Ok};
ghost use Rattle.score.specs.Score.{score_of, note_in, note_draws, score_draws};
ghost use Rattle.score.specs.Refusals.{refusal};
ghost use Rattle.score_draws.specs.Sum.{sum_of};

use dsl::{Decoded, Reading};
use score::{Lent, Seq};

// The draws of note k: none where it is skipped.
pub fn note_draws(seq: Seq, notes: &[u32], lane: &[f32], lent: Lent, k: usize) -> usize
    requires lent_value { refusal (score_of seq notes.now lane.now lent) ≡ Ok tt }
    requires k_in_bounds { k < length notes.now / 5 }
    ensures { result ≡ note_draws (score_of seq notes.now lane.now lent) (note_in (score_of seq notes.now lane.now lent) k) }
{
    let Decoded::Note(note) = score::note_at(notes, k) else {
        return 0;
    };
    let timing = seq.timing;
    let place = score::place_note(timing, lent.n, note);
    if place.start >= lent.n {
        return 0;
    }
    let pitch = note.pitch;
    let reading = Reading::new(pitch, seq.hop);
    let voice = seq.voice;
    let wave = voice.wave;
    let kit = voice.kit;
    draws::draw_count(wave, kit, timing.rate, reading.at(lane, 0), place.sounded)
}

// The draws of all notes: none where they pass `left`. What is added never passes `left`, so that the sum
// cannot overflow.
pub fn score_draws(seq: Seq, notes: &[u32], lane: &[f32], lent: Lent, left: u64) -> Option<u64>
    requires { refusal (score_of seq notes.now lane.now lent) ≡ Ok tt }
    ensures { result ≡ sum_of left (score_draws (score_of seq notes.now lane.now lent)) }
{
    let count = notes.len() / 5;
    let mut total = 0u64;
    for k in 0..count {
        let e = note_draws(seq, notes, lane, lent, k) as u64;
        if e > left - total {
            return None;
        }
        total += e;
    }
    Some(total)
}

// A note makes at most as many draws as a call may have frames, 2^24 (the law `few_fit`).
const NOTE_MOST: u64 = 16777216;

// Whether the draws of all notes are no more than `left`. So many notes that the sum is needed to tell are rare.
pub fn draws_fit(seq: Seq, notes: &[u32], lane: &[f32], lent: Lent, left: u64) -> bool
    requires { refusal (score_of seq notes.now lane.now lent) ≡ Ok tt }
    ensures { result ≡ leb (score_draws (score_of seq notes.now lane.now lent)) left }
{
    let count = (notes.len() / 5) as u64;
    if count <= left / NOTE_MOST {
        return true;
    }
    score_draws(seq, notes, lane, lent, left).is_some()
}
