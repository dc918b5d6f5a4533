// What a note's line shows.
ghost use Rattle.std.specs.Prelude.{◌≡◌, ◌/◌, ◌<◌, length, Ok};
ghost use Rattle.score.specs.Score.{score_of, note_in, note_draws};
ghost use Rattle.score.specs.Refusals.{refusal};
ghost use Rattle.cue_pages.specs.Sheet.{skipped_cue, cue_of};

use cue_line::Cue;
use dsl::{Decoded, SeqWave};
use score::{Lent, Seq};

fn skipped_cue(k: usize, step: u32, wave: SeqWave) -> Cue
    ensures { result ≡ skipped_cue wave k step }
{
    Cue {
        place: k as u64,
        step,
        start: None,
        sounded: 0,
        wave,
        first: None,
        draws: 0,
    }
}

// The cue of note k, before which the count `first` was reached, and which makes so many draws.
pub(crate) fn cue_at(
    seq: Seq,
    notes: &[u32],
    lane: &[f32],
    lent: Lent,
    k: usize,
    first: u64,
    draws: u64,
) -> Cue
    requires lent_value { refusal (score_of seq notes.now lane.now lent) ≡ Ok tt }
    requires k_in_bounds { k < length notes.now / 5 }
    requires draws_value { draws ≡ note_draws (score_of seq notes.now lane.now lent) (note_in (score_of seq notes.now lane.now lent) k) }
    ensures { result ≡ cue_of (score_of seq notes.now lane.now lent) k first (note_in (score_of seq notes.now lane.now lent) k) }
{
    let voice = seq.voice;
    let wave = voice.wave;
    let Decoded::Note(note) = score::note_at(notes, k) else {
        return skipped_cue(k, 0, wave);
    };
    let n = lent.n;
    let place = score::place_note(seq.timing, n, note);
    if place.start >= n {
        return skipped_cue(k, note.step, wave);
    }
    Cue {
        place: k as u64,
        step: note.step,
        start: Some(place.start as u64),
        sounded: place.sounded as u64,
        wave,
        first: Some(first),
        draws,
    }
}
