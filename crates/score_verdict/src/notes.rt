// The refusals of a score's notes.
ghost use Rattle.std.specs.Prelude.{◌≡◌, map, ◌≤◌, Ok};
ghost use Rattle.dsl.specs.Domain.{Frames};
ghost use Rattle.outcome.specs.First.{first_of, first_after, first_refusal};
ghost use Rattle.score.specs.Score.{score_of, notes_in};
ghost use Rattle.score.specs.Refusals.{word_tests, value_tests, note_tests, untuned_tests, note_refusal};

use dsl::{Decoded, SeqNote, Untuned};
use outcome::{Refusal, refuse_if};
use score::{Lent, Seq};

// 9, and 10 of the gain.
fn words_verdict(step: u32, len: u32, gain: f32) -> Result<(), Refusal>
    ensures { result ≡ first_after (Ok tt) (word_tests step len gain) }
{
    refuse_if(step > 1048575, Refusal::Steps)?;
    refuse_if(len > 1048575, Refusal::Steps)?;
    refuse_if(!dsl::is_sized(gain), Refusal::Size)
}

// 9 and 10.
fn values_verdict(note: SeqNote) -> Result<(), Refusal>
    ensures { result ≡ first_after (Ok tt) (value_tests note) }
{
    words_verdict(note.step, note.len, note.gain)?;
    refuse_if(!note.pitch.is_sized(), Refusal::Size)
}

// 9, 10 and 30, of a note whose number has no quarter tone.
fn untuned_verdict(untuned: Untuned) -> Result<(), Refusal>
    ensures { result ≡ first_after (Ok tt) (untuned_tests untuned) }
{
    words_verdict(untuned.step, untuned.len, untuned.gain)?;
    Err(Refusal::Tone)
}

// 9, 10 and 12, of a note. Only of a curve the place is worked out, and only once the note's numbers are fine.
fn pitched_verdict(
    seq: Seq,
    notes: &[u32],
    lane: &[f32],
    lent: Lent,
    note: SeqNote,
) -> Result<(), Refusal>
    requires frames { Frames lent.n }
    requires le_hop { 1 ≤ seq.hop }
    ensures { result ≡ first_of (note_tests (score_of seq notes.now lane.now lent) note) }
{
    values_verdict(note)?;
    let pitch = note.pitch;
    if !pitch.is_curve() {
        return Ok(());
    }
    let place = score::place_note(seq.timing, lent.n, note);
    refuse_if(pitch.passes(seq.hop, lane.len(), place.len), Refusal::Reach)
}

// 8, 9, 10, 30 and 12, of one note.
fn note_verdict(
    seq: Seq,
    notes: &[u32],
    lane: &[f32],
    lent: Lent,
    note: Decoded,
) -> Result<(), Refusal>
    requires frames { Frames lent.n }
    requires le_hop { 1 ≤ seq.hop }
    ensures { result ≡ note_refusal (score_of seq notes.now lane.now lent) note }
{
    match note {
        Decoded::Note(note) => pitched_verdict(seq, notes, lane, lent, note),
        Decoded::NoTone(untuned) => untuned_verdict(untuned),
        Decoded::NoKind => Err(Refusal::Kind),
    }
}

// The first refusal of a note in list order.
pub(crate) fn notes_verdict(
    seq: Seq,
    notes: &[u32],
    lane: &[f32],
    lent: Lent,
) -> Result<(), Refusal>
    requires frames { Frames lent.n }
    requires le_hop { 1 ≤ seq.hop }
    ensures { result ≡ first_refusal (map (note_refusal (score_of seq notes.now lane.now lent)) (notes_in (score_of seq notes.now lane.now lent))) }
{
    let count = notes.len() / 5;
    for k in 0..count {
        note_verdict(seq, notes, lane, lent, score::note_at(notes, k))?;
    }
    Ok(())
}
