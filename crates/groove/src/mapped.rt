// Groove under a tempo map: the delays of `timing`, scaled by the step at the tempo where the note starts, in f64.
ghost use Rattle.std.specs.Prelude.{◌≡◌, ◌+◌, ◌<◌, min, length};
ghost use Rattle.ieee.specs.Numbers64.{f64};
ghost use Rattle.dsl.specs.Domain.{numeric};
ghost use Rattle.tempo.specs.Map.{points};
ghost use Rattle.groove.specs.Timing.{human_gain};
ghost use Rattle.groove.specs.Mapped.{end_step, step_frames_of, swing_delay64, human_delay64, frame_of, mapped_of, mapped_length};

use crate::humanize::humanize_draws;
use crate::timing::{Human, human_gain};
use dsl::SeqNote;
use tempo::TempoMap;

// The delay of an odd step at swing 1, in steps.
const SWING_MAX_STEP_FRACTION: f32 = 0.5;
// The largest delay at humanize 1, in steps.
const HUMANIZE_TIMING_STEP_FRACTION: f32 = 0.12;

// Where a note stops, in steps: at least one step on.
pub fn note_end_step(note: SeqNote) -> u32
    ensures { result ≡ end_step note }
{
    if note.len < 1 {
        return note.step.saturating_add(1);
    }
    note.step.saturating_add(note.len)
}

fn widened(n: u32) -> f64
    ensures { result ≡ f64 n }
{
    std::num::nearest_u64_to_f64(n as u64)
}

fn step_frames(bpm: f64, steps_per_beat: u32, rate: u32) -> f64
    ensures { result ≡ step_frames_of bpm steps_per_beat rate }
{
    60.0 / bpm / widened(steps_per_beat) * widened(rate)
}

fn swing_delay_mapped(step: u32, swing: f32, step_frames: f64) -> f64
    ensures { result ≡ swing_delay64 step swing step_frames }
{
    if step % 2 == 1 {
        let wide = std::num::f32_to_f64_with_nan(swing);
        return wide * std::num::f32_to_f64_with_nan(SWING_MAX_STEP_FRACTION) * step_frames;
    }
    0.0
}

fn humanized_mapped(note: SeqNote, humanize: f32, step_frames: f64) -> Human<f64>
    requires { numeric note.pitch }
    ensures delay_value { result.delay ≡ human_delay64 note humanize step_frames }
    ensures gain_value { result.gain ≡ human_gain note humanize }
{
    if humanize > 0.0 {
        let draws = humanize_draws(note);
        let wide = std::num::f32_to_f64_with_nan(humanize);
        let part = std::num::f32_to_f64_with_nan(HUMANIZE_TIMING_STEP_FRACTION);
        let timing = std::num::f32_to_f64_with_nan(draws.timing);
        return Human {
            delay: wide * part * step_frames * timing,
            gain: human_gain(note.gain, humanize, draws.gain),
        };
    }
    Human {
        delay: 0.0,
        gain: note.gain,
    }
}

// Rounded, a half away from zero, and not below 0.
fn frame_at(frames: f64) -> usize
    ensures { result ≡ frame_of frames }
{
    float::f64_to_usize(float::max_f64(float::round_f64(frames), 0.0))
}

// A note's first frame, the frame where it stops, which can come before it, and its grooved gain.
#[derive(Clone, Copy)]
pub struct Mapped {
    pub start: usize,
    pub end: usize,
    pub gain: f32,
}

pub fn groove_note_mapped(
    note: SeqNote,
    swing: f32,
    humanize: f32,
    map: TempoMap,
    steps_per_beat: u32,
    rate: u32,
) -> Mapped
    requires numeric { numeric note.pitch }
    requires nonzero { 0 < length (points map) }
    ensures { result ≡ mapped_of note swing humanize (points map) steps_per_beat rate }
{
    let spb = widened(steps_per_beat);
    let sr = widened(rate);
    let start_beat = widened(note.step) / spb;
    let end_beat = widened(note_end_step(note)) / spb;
    let span = tempo::span_at(map, start_beat, end_beat);
    let dur = step_frames(span.bpm, steps_per_beat, rate);
    let delay = swing_delay_mapped(note.step, swing, dur);
    let human = humanized_mapped(note, humanize, dur);
    Mapped {
        start: frame_at(span.start * sr + delay + human.delay),
        end: frame_at(span.end * sr),
        gain: float::clamp_f32(human.gain, 0.0, 1.0),
    }
}

// A note's frames, sounded or not: from start to end, at most n, and at least 1, also where n is 0.
pub fn mapped_len(start: usize, end: usize, n: usize) -> usize
    ensures { result ≡ mapped_length start end n }
{
    if end <= start {
        return 1;
    }
    if n < 1 {
        return 1;
    }
    let whole = end - start;
    if n < whole { n } else { whole }
}
