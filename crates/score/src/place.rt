// The notes of a score, and where they stand.
ghost use Rattle.std.specs.Prelude.{◌≡◌, ◌+◌, ◌*◌, ◌<◌, length};
ghost use Rattle.dsl.specs.Domain.{Frames, numeric};
ghost use Rattle.tempo.specs.Map.{points};
ghost use Rattle.score.specs.Score.{note_at, straight_place, mapped_place, place_of};

use crate::seq::Timing;
use dsl::{Decoded, SeqNote};

// Note k of a list of note words.
pub fn note_at(notes: &[u32], k: usize) -> Decoded
    requires { k * 5 + 4 < length notes.now }
    ensures { result ≡ note_at notes.now k }
{
    let i = k * 5;
    SeqNote::decode(
        notes[i],
        notes[i + 1],
        notes[i + 2],
        notes[i + 3],
        notes[i + 4],
    )
}

// A note's first frame, its whole length, how many frames of it sound within the score, and its
// grooved gain.
#[derive(Clone, Copy)]
pub struct Place {
    pub start: usize,
    pub len: usize,
    pub sounded: usize,
    pub gain: f32,
}

fn straight_place(timing: Timing, n: usize, note: SeqNote) -> Place
    requires frames { Frames n }
    requires numeric { numeric note.pitch }
    ensures { result ≡ straight_place timing n note }
{
    let step_dur = groove::step_dur(timing.rate, timing.tempo, timing.steps_per_beat);
    let groove = groove::groove_note(note, timing.swing, timing.humanize, step_dur);
    let len = groove::note_len(note.len, step_dur, n);
    Place {
        start: groove.start,
        len,
        sounded: groove::sounded_frames(n, groove.start, len),
        gain: groove.gain,
    }
}

fn mapped_place(timing: Timing, n: usize, note: SeqNote) -> Place
    requires numeric { numeric note.pitch }
    requires nonzero { 0 < length (points timing.tempo_map) }
    ensures { result ≡ mapped_place timing n note }
{
    let mapped = groove::groove_note_mapped(
        note,
        timing.swing,
        timing.humanize,
        timing.tempo_map,
        timing.steps_per_beat,
        timing.rate,
    );
    let len = groove::mapped_len(mapped.start, mapped.end, n);
    Place {
        start: mapped.start,
        len,
        sounded: groove::sounded_frames(n, mapped.start, len),
        gain: mapped.gain,
    }
}

pub fn place_note(timing: Timing, n: usize, note: SeqNote) -> Place
    requires frames { Frames n }
    requires numeric { numeric note.pitch }
    ensures { result ≡ place_of timing n note }
{
    let map = timing.tempo_map;
    if map.len() == 0 {
        return straight_place(timing, n, note);
    }
    mapped_place(timing, n, note)
}
