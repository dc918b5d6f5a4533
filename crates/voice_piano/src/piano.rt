// A grand piano: up to 18 partials, stretched sharp by the string's stiffness, each on two strings a
// little apart, whose slow beating is the shimmer; high partials die first. A hammer's thump of noise
// comes with the attack.
ghost use Rattle.std.specs.Prelude.{◌≡◌, ◌≤◌, min, length, take};
ghost use Rattle.ieee.specs.Numbers.{f32};
ghost use Rattle.rng.specs.SplitMix64.{state_after};
ghost use Rattle.dsl.specs.Domain.{Rate, Frames};
ghost use Rattle.dsl.specs.Pitch.{pitch_at, reaches};
ghost use Rattle.voice_piano.specs.Piano.{thump_of, thump_end, heard, piano_at, norm_of, sound_frames, piano_frames};
ghost use Rattle.osc.specs.Phase.{seconds};
ghost use Rattle.counts.specs.Draws.{thumps, thump_frames, passing};

use crate::hammer::{Partial, hammer_blow, piano_partials};
use crate::wires::{Pair, amp_sum, string_pair, wires_at};
use dsl::{PianoKnobs, Reading};
use osc::Out;
use rng::{Draw, Rng};

#[derive(Clone, Copy)]
pub struct PianoState {
    pub items: [Partial; 18],
    pub rng: Rng,
}

// The thump of the felt hammer: soft noise for 6 milliseconds, and after that no draw.
fn thump(t: f32, rng: Rng) -> Draw<f32>
    ensures { (result.value ≡ thump_of t rng.0) × (result.rng.0 ≡ thump_end t rng.0) }
{
    if t < 0.006 {
        let d = rng.bi();
        let after = d.rng;
        return Draw {
            value: d.value * 0.3 * (1.0 - t / 0.006),
            rng: after,
        };
    }
    Draw { value: 0.0, rng }
}

// A frame at the pitch `fi`, of the first `count` partials. The arrays are lent for their sines.
fn piano_at(
    fi: f32,
    srf: f32,
    count: usize,
    det: Pair,
    norm: f32,
    i: usize,
    s: PianoState,
    x: &mut [f32; 384],
    near: &mut [f64; 384],
    q: &mut [f64; 384],
    wide: &mut [f64; 384],
    sines: &mut [f32; 384],
) -> Out<PianoState>
    requires frames { Frames i }
    requires count_bound { count ≤ 18 }
    requires x_len { (length x.old ≡ 384) × (length near.old ≡ 384) × (length q.old ≡ 384) × (length wide.old ≡ 384) × (length sines.old ≡ 384) }
    ensures x_len_2 { (length x.new ≡ 384) × (length near.new ≡ 384) × (length q.new ≡ 384) × (length wide.new ≡ 384) × (length sines.new ≡ 384) }
    ensures sample_value { result.sample ≡ (piano_at fi srf det norm i (heard count s)).sample }
    ensures state_value { heard count result.state ≡ (piano_at fi srf det norm i (heard count s)).state }
{
    let dt = osc::phase_step(fi, srf);
    let items = s.items;
    let w = wires_at(items, count, dt, det, x, near, q, wide, sines);
    let rng = s.rng;
    let d = thump(osc::frame_time(i, srf), rng);
    let items = w.items;
    let rng = d.rng;
    let state = PianoState { items, rng };
    Out {
        sample: w.sum * norm + d.value,
        state,
    }
}

// The frames of a note's partials. It draws while the hammer is heard, whatever the pitch.
fn sound_piano(
    pitch: Reading,
    lane: &[f32],
    srf: f32,
    count: usize,
    det: Pair,
    norm: f32,
    start: PianoState,
    out: &mut [f32],
) -> Rng
    requires reaches { reaches pitch (length lane.now) (length out.old) }
    requires frames { Frames (length out.old) }
    requires count_bound { count ≤ 18 }
    ensures out_after { out.new ≡ sound_frames (pitch_at pitch lane.now) srf det norm (heard count start) (length out.old) }
    ensures result_value { result.0 ≡ state_after start.rng.0 (passing (λ i. thumps (seconds srf i)) (length out.old)) }
{
    let mut x = [0.0f32; 384];
    let mut near = [0.0f64; 384];
    let mut q = [0.0f64; 384];
    let mut wide = [0.0f64; 384];
    let mut sines = [0.0f32; 384];
    let mut s = start;
    for i in 0..out.len() {
        let r = piano_at(
            pitch.at(lane, i),
            srf,
            count,
            det,
            norm,
            i,
            s,
            &mut x,
            &mut near,
            &mut q,
            &mut wide,
            &mut sines,
        );
        out[i] = r.sample;
        s = r.state;
    }
    s.rng
}

// What the sum of all strings is multiplied by, for a peak near 0.5.
fn loudness(items: [Partial; 18], count: usize) -> f32
    requires { count ≤ 18 }
    ensures { result ≡ norm_of (take count items) }
{
    0.5 / (2.0 * float::max_f32(amp_sum(items, count), 1e-6))
}

// Hands back the generator after a draw for each frame of the thump; with no frame there is no first
// pitch to read.
pub fn piano_note(
    knobs: PianoKnobs,
    gain: f32,
    pitch: Reading,
    lane: &[f32],
    rate: u32,
    rng: Rng,
    out: &mut [f32],
) -> Rng
    requires rate { Rate rate }
    requires reaches { reaches pitch (length lane.now) (length out.old) }
    requires frames { Frames (length out.old) }
    ensures out_after { out.new ≡ piano_frames (pitch_at pitch lane.now) knobs gain (f32 rate) rng.0 (length out.old) }
    ensures result_value { result.0 ≡ state_after rng.0 (min (length out.old) (thump_frames rate)) }
{
    if out.len() == 0 {
        return rng;
    }
    let srf = std::num::nearest_u32_to_f32(rate);
    let ps = piano_partials(hammer_blow(knobs, gain, pitch.at(lane, 0)), srf);
    let items = ps.items;
    let count = ps.count;
    let norm = loudness(items, count);
    let det = string_pair(knobs.piano_detune);
    let start = PianoState { items, rng };
    sound_piano(pitch, lane, srf, count, det, norm, start, out)
}
