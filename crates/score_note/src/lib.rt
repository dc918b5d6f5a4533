// One note of a score, voiced and added to the frames.
#![tactic(auto)]

ghost use Rattle.std.specs.Prelude.{◌≡◌, ◌+◌, ◌≤◌, ◌<◌, length, drop};
ghost use Rattle.rng.specs.SplitMix64.{state_after};
ghost use Rattle.dsl.specs.Domain.{Rate, Frames};
ghost use Rattle.dsl.specs.Pitch.{reading, pitch_at, reaches};
ghost use Rattle.draws.specs.Draws.{draws_of};
ghost use Rattle.voice.specs.Voice.{note_frames};
ghost use Rattle.mix.specs.Mix.{mixed_at};
ghost use Rattle.score_note.specs.Drawn.{drawn_from};

use dsl::{Pitch, Reading, SeqNote};
use rng::Rng;
use score::{Place, Seq};

// A generator after some draws, and how many they were: a plain count, which nobody reads off the generator.
#[derive(Clone, Copy)]
pub struct Drawn {
    pub rng: Rng,
    pub draws: u64,
}

// Voices a note into the note buffer and adds it to the frames from its start on; hands back the
// generator after it, and the draws that it made. The voice reads the note's own gain, the mix the grooved one.
pub fn sound_counted(
    rng: Rng,
    seq: Seq,
    note: SeqNote,
    place: Place,
    lane: &[f32],
    out: &mut [f32],
    note_buf: &mut [f32],
    string: &mut [f32],
) -> Drawn
    requires rate { Rate seq.timing.rate }
    requires frames { Frames (length out.old) }
    requires sounded_nonzero { 0 < place.sounded }
    requires sounded_in_bounds { place.start + place.sounded ≤ length out.old }
    requires frames_2 { Frames place.len }
    requires reaches { reaches (reading note.pitch seq.hop) (length lane.now) place.sounded }
    requires out_in_bounds { length out.old ≤ length note_buf.old }
    requires in_bounds { 9600 ≤ length string.old }
    ensures value { result ≡ drawn_from rng.0
        (draws_of seq.voice.wave seq.voice.kit seq.timing.rate (pitch_at (reading note.pitch seq.hop) lane.now 0) place.sounded) }
    ensures out_after { out.new ≡ mixed_at place.start
        (note_frames seq.timing.rate seq.voice note.gain (pitch_at (reading note.pitch seq.hop) lane.now) (λ _. seq.duty) rng.0 place.sounded)
        seq.env place.len seq.timing.rate place.gain out.old }
    ensures note_buf_unchanged { drop (length out.old) note_buf.new ≡ drop (length out.old) note_buf.old }
    ensures string_unchanged { drop 9600 string.new ≡ drop 9600 string.old }
{
    let timing = seq.timing;
    let rate = timing.rate;
    let pitch = note.pitch;
    let reading = Reading::new(pitch, seq.hop);
    let level = Pitch::Const(seq.duty);
    let duty = Reading::new(level, 1);
    let sounded = place.sounded;
    let sig = &mut note_buf[..sounded];
    let after = voice::voice_note(
        rng, rate, seq.voice, note.gain, reading, lane, duty, lane, sig, string,
    );
    let sig = &note_buf[..sounded];
    mix::mix_at(out, place.start, sig, seq.env, place.len, rate, place.gain);
    let sound = seq.voice;
    let wave = sound.wave;
    let kit = sound.kit;
    let e = draws::draw_count(wave, kit, rate, reading.at(lane, 0), sounded);
    Drawn {
        rng: after,
        draws: e as u64,
    }
}

// The same note; hands back the generator alone.
pub fn sound_note(
    rng: Rng,
    seq: Seq,
    note: SeqNote,
    place: Place,
    lane: &[f32],
    out: &mut [f32],
    note_buf: &mut [f32],
    string: &mut [f32],
) -> Rng
    requires rate { Rate seq.timing.rate }
    requires frames { Frames (length out.old) }
    requires sounded_nonzero { 0 < place.sounded }
    requires sounded_in_bounds { place.start + place.sounded ≤ length out.old }
    requires frames_2 { Frames place.len }
    requires reaches { reaches (reading note.pitch seq.hop) (length lane.now) place.sounded }
    requires out_in_bounds { length out.old ≤ length note_buf.old }
    requires in_bounds { 9600 ≤ length string.old }
    ensures value { result.0 ≡ state_after rng.0
        (draws_of seq.voice.wave seq.voice.kit seq.timing.rate (pitch_at (reading note.pitch seq.hop) lane.now 0) place.sounded) }
    ensures out_after { out.new ≡ mixed_at place.start
        (note_frames seq.timing.rate seq.voice note.gain (pitch_at (reading note.pitch seq.hop) lane.now) (λ _. seq.duty) rng.0 place.sounded)
        seq.env place.len seq.timing.rate place.gain out.old }
    ensures note_buf_unchanged { drop (length out.old) note_buf.new ≡ drop (length out.old) note_buf.old }
    ensures string_unchanged { drop 9600 string.new ≡ drop 9600 string.old }
{
    let sounded = sound_counted(rng, seq, note, place, lane, out, note_buf, string);
    sounded.rng
}
