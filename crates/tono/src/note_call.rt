// One note from C.
ghost use Rattle.tono_seq.specs.Note.{NoteExported};

// Plays one note from a generator's state. 0 where the call is accepted, else the refusal's number.
// Where there are not 22 knobs and 10 numbers of drawbars, or there is no such wave or style, the answer is 4294967295 and
// nothing changes.
#[unsafe(no_mangle)]
pub extern "C" fn tono_note(
    rate: u32,
    wave: u32,
    style: u32,
    knobs: &[f32],
    bars: &[f32],
    gain: f32,
    state: &mut u64,
    draws: &mut u64,
    pitch: &[f32],
    duty: &[f32],
    out: &mut [f32],
    string: &mut [f32],
) -> u32
    ensures { NoteExported (record {
      rate = rate;
      wave = wave;
      style = style;
      knobs = knobs.now;
      bars = bars.now;
      gain = gain;
      pitch = pitch.now;
      duty = duty.now;
      state₀ = state.old;
      state = state.new;
      places = record {
        number = result;
        draws₀ = draws.old;
        draws = draws.new;
        out₀ = out.old;
        out = out.new;
        string₀ = string.old;
        string = string.new;
      };
    }) }
{
    tono_seq::seq_note_signal(
        rate, wave, style, knobs, bars, gain, state, draws, pitch, duty, out, string,
    )
}
