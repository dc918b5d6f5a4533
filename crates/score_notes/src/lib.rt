// The notes of an accepted score, one after the other.
#![tactic(auto)]

ghost use Rattle.std.specs.Prelude.{ℕ, ◌≡◌, ◌+◌, ◌/◌, ◌^◌, ◌≤◌, ◌<◌, length, drop, Ok};
ghost use Rattle.rng.specs.SplitMix64.{state_after};
ghost use Rattle.score.specs.Score.{score_of, note_in, note_draws, draws_before, score_draws};
ghost use Rattle.score.specs.Refusals.{refusal};
ghost use Rattle.score_contract.specs.Frames.{with_note, frames_after, score_frames};
ghost use Rattle.score_note.specs.Drawn.{drawn_from};

use dsl::Decoded;
use rng::Rng;
use score::{Lent, Seq};
use score_note::Drawn;

// Note k: nothing where it is skipped. The lent buffers are as long as `lent` says.
fn play_note(
    rng: Rng,
    seq: Seq,
    notes: &[u32],
    lane: &[f32],
    lent: Lent,
    k: usize,
    out: &mut [f32],
    note_buf: &mut [f32],
    string: &mut [f32],
) -> Drawn
    requires lent_value { refusal (score_of seq notes.now lane.now lent) ≡ Ok tt }
    requires k_in_bounds { k < length notes.now / 5 }
    requires out_len { length out.old ≡ lent.n }
    requires note_buf_len { length note_buf.old ≡ lent.room }
    requires string_len { length string.old ≡ lent.string }
    ensures value { result ≡ drawn_from rng.0 (note_draws (score_of seq notes.now lane.now lent) (note_in (score_of seq notes.now lane.now lent) k)) }
    ensures out_after { out.new ≡ with_note (score_of seq notes.now lane.now lent)
        (note_in (score_of seq notes.now lane.now lent) k) rng.0 out.old }
    ensures note_buf_unchanged { drop lent.n note_buf.new ≡ drop lent.n note_buf.old }
    ensures string_unchanged { drop 9600 string.new ≡ drop 9600 string.old }
{
    let n = lent.n;
    let Decoded::Note(note) = score::note_at(notes, k) else {
        return Drawn { rng, draws: 0 };
    };
    let place = score::place_note(seq.timing, n, note);
    if place.start >= n {
        return Drawn { rng, draws: 0 };
    }
    score_note::sound_counted(rng, seq, note, place, lane, out, note_buf, string)
}

// Plays the notes from `from` on and before `to`, in list order. Where the generator and the frames stand as the notes
// before leave them, they then stand as these leave them. Counts the draws of these notes, where 64 bits can hold those
// of all before `to`.
fn play_each(
    rng: Rng,
    seq: Seq,
    notes: &[u32],
    from: usize,
    to: usize,
    lane: &[f32],
    lent: Lent,
    out: &mut [f32],
    note_buf: &mut [f32],
    string: &mut [f32],
) -> Drawn
    requires lent_value { refusal (score_of seq notes.now lane.now lent) ≡ Ok tt }
    requires from_in_bounds { from ≤ to }
    requires to_in_bounds { to ≤ length notes.now / 5 }
    requires out_len { length out.old ≡ lent.n }
    requires note_buf_len { length note_buf.old ≡ lent.room }
    requires string_len { length string.old ≡ lent.string }
    ensures state { (g : ℕ) → rng.0 ≡ state_after g (draws_before (score_of seq notes.now lane.now lent) from) →
        result.rng.0 ≡ state_after g (draws_before (score_of seq notes.now lane.now lent) to) }
    ensures draws { draws_before (score_of seq notes.now lane.now lent) to < 2 ^ 64 →
        draws_before (score_of seq notes.now lane.now lent) from + result.draws ≡ draws_before (score_of seq notes.now lane.now lent) to }
    ensures out_after { (g : ℕ) → rng.0 ≡ state_after g (draws_before (score_of seq notes.now lane.now lent) from) →
        out.old ≡ frames_after (score_of seq notes.now lane.now lent) g 0 from →
        out.new ≡ frames_after (score_of seq notes.now lane.now lent) g 0 to }
    ensures note_buf_unchanged { drop lent.n note_buf.new ≡ drop lent.n note_buf.old }
    ensures string_unchanged { drop 9600 string.new ≡ drop 9600 string.old }
{
    let mut after = rng;
    let mut draws = 0u64;
    for k in from..to {
        let played = play_note(after, seq, notes, lane, lent, k, out, note_buf, string);
        after = played.rng;
        draws = draws.wrapping_add(played.draws);
    }
    Drawn { rng: after, draws }
}

// Fills the frames: plus zeros, and then each note in list order. Hands back the generator after all of them, and
// their draws, which 64 bits must be able to hold.
pub fn play_counted(
    rng: Rng,
    seq: Seq,
    notes: &[u32],
    lane: &[f32],
    lent: Lent,
    out: &mut [f32],
    note_buf: &mut [f32],
    string: &mut [f32],
) -> Drawn
    requires lent_value { refusal (score_of seq notes.now lane.now lent) ≡ Ok tt }
    requires out_len { length out.old ≡ lent.n }
    requires note_buf_len { length note_buf.old ≡ lent.room }
    requires string_len { length string.old ≡ lent.string }
    requires lent_bound { score_draws (score_of seq notes.now lane.now lent) < 2 ^ 64 }
    ensures value { result ≡ drawn_from rng.0 (score_draws (score_of seq notes.now lane.now lent)) }
    ensures out_after { out.new ≡ score_frames (score_of seq notes.now lane.now lent) rng.0 0 }
    ensures note_buf_unchanged { drop lent.n note_buf.new ≡ drop lent.n note_buf.old }
    ensures string_unchanged { drop 9600 string.new ≡ drop 9600 string.old }
{
    mix::clear(out);
    let count = notes.len() / 5;
    play_each(rng, seq, notes, 0, count, lane, lent, out, note_buf, string)
}

// The same, and the generator alone: any number of draws will do.
pub fn play_notes(
    rng: Rng,
    seq: Seq,
    notes: &[u32],
    lane: &[f32],
    lent: Lent,
    out: &mut [f32],
    note_buf: &mut [f32],
    string: &mut [f32],
) -> Rng
    requires lent_value { refusal (score_of seq notes.now lane.now lent) ≡ Ok tt }
    requires out_len { length out.old ≡ lent.n }
    requires note_buf_len { length note_buf.old ≡ lent.room }
    requires string_len { length string.old ≡ lent.string }
    ensures value { result.0 ≡ state_after rng.0 (score_draws (score_of seq notes.now lane.now lent)) }
    ensures out_after { out.new ≡ score_frames (score_of seq notes.now lane.now lent) rng.0 0 }
    ensures note_buf_unchanged { drop lent.n note_buf.new ≡ drop lent.n note_buf.old }
    ensures string_unchanged { drop 9600 string.new ≡ drop 9600 string.old }
{
    mix::clear(out);
    let count = notes.len() / 5;
    play_each(rng, seq, notes, 0, count, lane, lent, out, note_buf, string).rng
}
