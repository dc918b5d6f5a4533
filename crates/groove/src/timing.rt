// Groove: where a note starts and how loud it is.
ghost use Rattle.std.specs.Prelude.{◌≡◌};
ghost use Rattle.dsl.specs.Domain.{numeric};
ghost use Rattle.groove.specs.Timing.{step_dur_of, swing_delay, wobbled, human_delay, human_gain, groove_of};

use crate::humanize::humanize_draws;
use dsl::SeqNote;

// The delay of an odd step at swing 1, in steps.
const SWING_MAX_STEP_FRACTION: f32 = 0.5;
// The largest delay at humanize 1, in steps.
const HUMANIZE_TIMING_STEP_FRACTION: f32 = 0.12;
// The largest change of the gain at humanize 1, as a part of it.
const HUMANIZE_VELOCITY_FRACTION: f32 = 0.15;

// Samples per step.
pub fn step_dur(rate: u32, bpm: f32, steps_per_beat: u32) -> f32
    ensures { result ≡ step_dur_of rate bpm steps_per_beat }
{
    let srf = std::num::nearest_u32_to_f32(rate);
    srf * 60.0 / bpm / std::num::nearest_u32_to_f32(steps_per_beat)
}

fn swing_delay(step: u32, swing: f32, step_dur: f32) -> f32
    ensures { result ≡ swing_delay step swing step_dur }
{
    if step % 2 == 1 {
        return swing * SWING_MAX_STEP_FRACTION * step_dur;
    }
    0.0
}

// A gain at humanize above 0, by the gain's draw.
pub(crate) fn human_gain(gain: f32, humanize: f32, draw: f32) -> f32
    ensures { result ≡ wobbled gain humanize draw }
{
    gain * (1.0 + humanize * HUMANIZE_VELOCITY_FRACTION * draw)
}

// What humanize makes of a note: its delay in frames, and its gain.
#[derive(Clone, Copy)]
pub(crate) struct Human<T> {
    pub(crate) delay: T,
    pub(crate) gain: f32,
}

fn humanized(note: SeqNote, humanize: f32, step_dur: f32) -> Human<f32>
    requires { numeric note.pitch }
    ensures delay_value { result.delay ≡ human_delay note humanize step_dur }
    ensures gain_value { result.gain ≡ human_gain note humanize }
{
    if humanize > 0.0 {
        let draws = humanize_draws(note);
        return Human {
            delay: humanize * HUMANIZE_TIMING_STEP_FRACTION * step_dur * draws.timing,
            gain: human_gain(note.gain, humanize, draws.gain),
        };
    }
    Human {
        delay: 0.0,
        gain: note.gain,
    }
}

// A note's first frame and its grooved gain.
#[derive(Clone, Copy)]
pub struct Groove {
    pub start: usize,
    pub gain: f32,
}

pub fn groove_note(note: SeqNote, swing: f32, humanize: f32, step_dur: f32) -> Groove
    requires { numeric note.pitch }
    ensures { result ≡ groove_of note swing humanize step_dur }
{
    let delay = swing_delay(note.step, swing, step_dur);
    let human = humanized(note, humanize, step_dur);
    let at = std::num::nearest_u32_to_f32(note.step) * step_dur + delay + human.delay;
    let start = float::f32_to_usize(float::max_f32(at, 0.0));
    Groove {
        start,
        gain: float::clamp_f32(human.gain, 0.0, 1.0),
    }
}
