// The note call.
ghost use Rattle.note.specs.NoteCall.{Voiced};

use crate::answer::{NoteAnswer, refused};
use dsl::{Pitch, Reading, SeqVoice};
use note_verdict::note_call_verdict;
use outcome::Refusal;
use rng::Rng;

// Fills `out` with a note whose pitch and duty at each frame are those of `pitch` and `duty`, and
// answers how many draws it made. Of `string` an accepted call uses the first 9,600 values; a refused
// call changes nothing.
pub fn seq_note_signal(
    rng: Rng,
    rate: u32,
    voice: SeqVoice,
    gain: f32,
    pitch: &[f32],
    duty: &[f32],
    out: &mut [f32],
    string: &mut [f32],
) -> NoteAnswer
    ensures { Voiced (record {
      rng = rng;
      rate = rate;
      voice = voice;
      gain = gain;
      pitch = pitch.now;
      duty = duty.now;
      out₀ = out.old;
      string₀ = string.old;
      answer = result;
      out = out.new;
      string = string.new;
    }) }
{
    let n = out.len();
    if let Err(r) = note_call_verdict(rate, voice, gain, pitch, duty, n, string.len()) {
        return refused(rng, r);
    }
    let wave = voice.wave;
    let kit = voice.kit;
    let e = draws::draw_count(wave, kit, rate, pitch[0], n);
    let curve = Reading::new(Pitch::Curve(0), 1);
    let after = voice::voice_note(
        rng, rate, voice, gain, curve, pitch, curve, duty, out, string,
    );
    NoteAnswer {
        rng: after,
        outcome: Ok(e as u64),
    }
}
