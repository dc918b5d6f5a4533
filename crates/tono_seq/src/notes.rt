// The note call from numbers and slices.
ghost use Rattle.tono_seq.specs.Note.{NoteExported};

use raw_call::{draws_of, number_of};
use raw_knobs::voice_at;
use rng::Rng;

// 0 where the call is accepted, else the refusal's number. `state` is the generator's, and changes
// only with an accepted call; `draws` gets the draws made, 0 for a refusal. `bars` has the drawbars, ratio
// before level. `style` is the place of the kit's style, whatever the wave.
// Where there is no such wave or style, or there are not 22 knobs and 10 numbers of drawbars, the answer is
// 4294967295 and nothing changes.
pub fn seq_note_signal(
    rate: u32,
    wave: u32,
    style: u32,
    knobs: &[f32],
    bars: &[f32],
    gain: f32,
    state: &mut u64,
    draws: &mut u64,
    pitch: &[f32],
    duty: &[f32],
    out: &mut [f32],
    string: &mut [f32],
) -> u32
    ensures { NoteExported (record {
      rate = rate;
      wave = wave;
      style = style;
      knobs = knobs.now;
      bars = bars.now;
      gain = gain;
      pitch = pitch.now;
      duty = duty.now;
      state₀ = state.old;
      state = state.new;
      places = record {
        number = result;
        draws₀ = draws.old;
        draws = draws.new;
        out₀ = out.old;
        out = out.new;
        string₀ = string.old;
        string = string.new;
      };
    }) }
{
    let Some(voice) = voice_at(wave, style, knobs, bars) else {
        return u32::MAX;
    };
    let rng = Rng::new(*state);
    let answer = note::seq_note_signal(rng, rate, voice, gain, pitch, duty, out, string);
    let after = answer.rng;
    let outcome = answer.outcome;
    *state = after.state();
    *draws = draws_of(outcome);
    number_of(outcome)
}
