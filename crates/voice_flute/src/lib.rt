// The concert flute: a sine with a vibrato of 5.5 hertz, up to 0.6 percent of the pitch, that fades in over 150 ms, as
// a player settles into the note, over breath, which is white noise through a gentle one-pole lowpass, an airy hiss,
// more of it in a louder note. Each frame draws once, in order, so that cutting the note into blocks changes no
// sample. It goes by blocks of up to 64 frames: the exponentials of the vibrato's depth first, then the states, each
// from the one before, then the sines of the tone, then the samples.
#![tactic(auto)]

ghost use Rattle.std.specs.Prelude.{◌≡◌, ◌+◌, ◌≤◌, ◌<◌, length};
ghost use Rattle.std.specs.Float.{nan};
ghost use Rattle.blocks.specs.Stored.{stored};
ghost use Rattle.blocks.proofs.Block.{Tabled};
ghost use Rattle.blocks.proofs.Carried.{Carried};
ghost use Rattle.ieee.specs.Numbers.{c0·15};
ghost use Rattle.ieee.specs.Binary32.{◌⊗◌};
ghost use Rattle.dsp.specs.Kernels.{TAU};
ghost use Rattle.dsl.specs.Domain.{Frames};
ghost use Rattle.dsl.specs.Pitch.{pitch_at, reaches};
ghost use Rattle.frame_block.specs.Decay.{decay_at};
ghost use Rattle.rng.specs.SplitMix64.{state_after};
ghost use Rattle.voice_flute.specs.Flute.{flute_at, flute_frames};
ghost use Rattle.voice_flute.specs.Block.{flute_next, flute_mix, flute_mix_at, flute_reached};

use dsl::Reading;
use rng::Rng;

// The phases of the tone and of the vibrato, the breath filter's memory, and the generator.
#[derive(Clone, Copy)]
pub struct FluteState {
    pub phase: f32,
    pub vib: f32,
    pub lp: f32,
    pub rng: Rng,
}

// The state after a frame, its vibrato faded in by the exponential e.
pub fn flute_next(e: f32, fi: f32, srf: f32, lp_a: f32, s: FluteState) -> FluteState
    ensures { result ≡ flute_next e fi srf lp_a s }
{
    let depth = 0.006 * (1.0 - e);
    let fmod = 1.0 + depth * dsp::sin(dsp::TAU * s.vib);
    let vib = osc::wrap(s.vib + 5.5 / srf);
    let phase = osc::wrap(s.phase + float::max_f32(fi, 0.0) * fmod / srf);
    let rng = s.rng;
    let breath = rng.bi();
    let next = breath.rng;
    let past = s.lp;
    let lp = past + lp_a * (breath.value - past);
    FluteState {
        phase,
        vib,
        lp,
        rng: next,
    }
}

// A frame's sample, by the tone's sine and the breath.
pub fn flute_mix(tone: f32, gain: f32, lp: f32) -> f32
    ensures { result ≡ flute_mix tone gain lp }
{
    0.9 * tone + (0.02 + 0.03 * gain) * lp
}

// The sample of frame k of a block by the tone's sines s and the breath b.
fn flute_mix_at(s: &[f32; 384], b: &[f32; 64], gain: f32, k: usize) -> f32
    requires { k < 64 }
    ensures { result ≡ flute_mix_at s.now b.now gain k }
{
    flute_mix(s[k], gain, b[k])
}

// The arguments x of the tone's sines and the breath b of n frames, whose exponentials are e; hands back
// the state after them. A frame sounds its state after the frame, not the one before.
fn states(
    e: &[f32; 64],
    pitch: Reading,
    lane: &[f32],
    srf: f32,
    lp_a: f32,
    from: usize,
    n: usize,
    start: FluteState,
    x: &mut [f32; 384],
    b: &mut [f32; 64],
) -> FluteState
    requires n_bound { (n ≤ 64) × (length x.old ≡ 384) × (length b.old ≡ 64) }
    requires reaches { reaches pitch (length lane.now) (from + n) }
    requires tabled { Tabled (decay_at srf c0·15) nan from (from + n) e.now }
    ensures x_len { (length x.new ≡ 384) × (length b.new ≡ 64) }
    ensures tabled_2 { Tabled (λ k. TAU ⊗ (flute_reached (pitch_at pitch lane.now) srf lp_a from start (k + 1)).phase) nan 0 n x.new }
    ensures tabled_3 { Tabled (λ k. (flute_reached (pitch_at pitch lane.now) srf lp_a from start (k + 1)).lp) nan 0 n b.new }
    ensures value { result ≡ flute_reached (pitch_at pitch lane.now) srf lp_a from start n }
{
    let mut s = start;
    for k in 0..n {
        let next = flute_next(e[k], pitch.at(lane, from + k), srf, lp_a, s);
        x[k] = dsp::TAU * next.phase;
        b[k] = next.lp;
        s = next;
    }
    s
}

// The samples of n frames.
fn mix(s: &[f32; 384], b: &[f32; 64], gain: f32, from: usize, n: usize, out: &mut [f32])
    requires { (n ≤ 64) × (from + n ≤ length out.old) }
    ensures { out.new ≡ stored (flute_mix_at s.now b.now gain) from n out.old }
{
    for k in 0..n {
        out[from + k] = flute_mix_at(s, b, gain, k);
    }
}

// The frames from `from` on and before `end`, from the state before them; hands back the state after them. The
// arrays are lent for what lies between.
fn flute_block(
    pitch: Reading,
    lane: &[f32],
    gain: f32,
    srf: f32,
    lp_a: f32,
    from: usize,
    end: usize,
    start: FluteState,
    x: &mut [f32; 384],
    near: &mut [f64; 384],
    q: &mut [f64; 384],
    wide: &mut [f64; 384],
    s: &mut [f32; 384],
    e: &mut [f32; 64],
    b: &mut [f32; 64],
    out: &mut [f32],
) -> FluteState
    requires from_le_end { (from ≤ end) × (end ≤ from + 64) × (end ≤ length out.old) }
    requires reaches { reaches pitch (length lane.now) end }
    requires x_len { (length x.old ≡ 384) × (length near.old ≡ 384) × (length q.old ≡ 384) × (length wide.old ≡ 384) × (length s.old ≡ 384) }
    requires e_len { (length e.old ≡ 64) × (length b.old ≡ 64) }
    ensures x_len_2 { (length x.new ≡ 384) × (length near.new ≡ 384) × (length q.new ≡ 384) × (length wide.new ≡ 384) × (length s.new ≡ 384) }
    ensures e_len_2 { (length e.new ≡ 64) × (length b.new ≡ 64) }
    ensures carried { Carried (λ i. flute_at (pitch_at pitch lane.now i) gain srf lp_a i) (λ o. o.sample) (λ o. o.state)
        from end out.old start out.new result }
{
    let n = end - from;
    frame_block::decays_before(srf, 0.15, from, end, e);
    let next = states(e, pitch, lane, srf, lp_a, from, n, start, x, b);
    sin_block::sinf_block(x, n, near, q, wide, s);
    mix(s, b, gain, from, n, out);
    next
}

// Hands back the generator after one draw a frame.
pub fn flute_note(
    pitch: Reading,
    lane: &[f32],
    gain: f32,
    srf: f32,
    rng: Rng,
    out: &mut [f32],
) -> Rng
    requires reaches { reaches pitch (length lane.now) (length out.old) }
    requires frames { Frames (length out.old) }
    ensures out_after { out.new ≡ flute_frames (pitch_at pitch lane.now) gain srf rng (length out.old) }
    ensures result_value { result.0 ≡ state_after rng.0 (length out.old) }
{
    let lp_a = 1.0 - dsp::exp(-dsp::TAU * 1200.0 / srf);
    let mut x = [0.0f32; 384];
    let mut near = [0.0f64; 384];
    let mut q = [0.0f64; 384];
    let mut wide = [0.0f64; 384];
    let mut s = [0.0f32; 384];
    let mut e = [0.0f32; 64];
    let mut b = [0.0f32; 64];
    let mut state = FluteState {
        phase: 0.0,
        vib: 0.0,
        lp: 0.0,
        rng,
    };
    for i in (0..out.len()).step_by(64) {
        let end = frame_block::block_end(i, out.len());
        state = flute_block(
            pitch, lane, gain, srf, lp_a, i, end, state, &mut x, &mut near, &mut q, &mut wide,
            &mut s, &mut e, &mut b, out,
        );
    }
    state.rng
}
