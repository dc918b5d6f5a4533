// Frequency modulation: a sine whose phase is moved by another sine. How far it is moved, the
// brightness, decays from the attack like a hammer's strike; a louder note strikes brighter. It goes by blocks of
// up to 64 frames: the phases first, then the inner sines and their level, then the outer sines.
ghost use Rattle.std.specs.Prelude.{◌≡◌, ◌+◌, ◌≤◌, length, get_or};
ghost use Rattle.std.specs.Float.{nan};
ghost use Rattle.blocks.specs.Stored.{stored};
ghost use Rattle.blocks.proofs.Block.{Tabled};
ghost use Rattle.blocks.proofs.Carried.{Carried};
ghost use Rattle.dsl.specs.Domain.{Frames};
ghost use Rattle.dsl.specs.Pitch.{pitch_at, reaches};
ghost use Rattle.voice_waves.specs.Fm.{fm_at, fm_frames};
ghost use Rattle.voice_waves.specs.Block.{modulator_turn_of, carrier_turn_of, fm_bent_at, fm_next, fm_reached};

use dsl::{FmKnobs, Reading};

// The phases of the carrier and of the modulator.
#[derive(Clone, Copy)]
pub struct FmState {
    pub cph: f32,
    pub mph: f32,
}

// The phases before the next frame.
pub fn fm_next(knobs: FmKnobs, s: FmState, dt: f32) -> FmState
    ensures { result ≡ fm_next knobs s dt }
{
    FmState {
        cph: osc::wrap(s.cph + dt),
        mph: osc::wrap(s.mph + dt * knobs.fm_ratio),
    }
}

// The turns of the modulator and of the carrier in n frames; hands back the state after them.
fn phases(
    pitch: Reading,
    lane: &[f32],
    knobs: FmKnobs,
    srf: f32,
    from: usize,
    n: usize,
    start: FmState,
    x: &mut [f32; 384],
    c: &mut [f32; 384],
) -> FmState
    requires n_bound { (n ≤ 64) × (length x.old ≡ 384) × (length c.old ≡ 384) }
    requires reaches { reaches pitch (length lane.now) (from + n) }
    ensures x_len { (length x.new ≡ 384) × (length c.new ≡ 384) }
    ensures tabled { Tabled (λ k. modulator_turn_of (fm_reached (pitch_at pitch lane.now) knobs srf from start k)) nan 0 n x.new }
    ensures tabled_2 { Tabled (λ k. carrier_turn_of (fm_reached (pitch_at pitch lane.now) knobs srf from start k)) nan 0 n c.new }
    ensures value { result ≡ fm_reached (pitch_at pitch lane.now) knobs srf from start n }
{
    let mut s = start;
    for k in 0..n {
        x[k] = dsp::TAU * s.mph;
        c[k] = dsp::TAU * s.cph;
        s = fm_next(knobs, s, osc::phase_step(pitch.at(lane, from + k), srf));
    }
    s
}

// The arguments of the outer sines of n frames, by the carrier's turns c, the level e and the inner sines s.
fn bend(
    knobs: FmKnobs,
    gain: f32,
    c: &[f32; 384],
    e: &[f32; 64],
    s: &[f32; 384],
    n: usize,
    x: &mut [f32; 384],
)
    requires { (n ≤ 64) × (length x.old ≡ 384) }
    ensures { (length x.new ≡ 384) × Tabled (fm_bent_at knobs gain c.now e.now s.now) nan 0 n x.new }
{
    for k in 0..n {
        x[k] = c[k] + knobs.fm_index * (0.4 + 0.6 * gain) * e[k] * s[k];
    }
}

// The outer sines are the samples.
fn copy(s: &[f32; 384], from: usize, n: usize, out: &mut [f32])
    requires { (n ≤ 64) × (from + n ≤ length out.old) }
    ensures { out.new ≡ stored (λ k. get_or s.now k nan) from n out.old }
{
    for k in 0..n {
        out[from + k] = s[k];
    }
}

// The frames from `from` on and before `end`, from the state before them; hands back the state after them. The
// arrays are lent for what lies between.
fn fm_block(
    pitch: Reading,
    lane: &[f32],
    knobs: FmKnobs,
    gain: f32,
    srf: f32,
    from: usize,
    end: usize,
    start: FmState,
    x: &mut [f32; 384],
    c: &mut [f32; 384],
    near: &mut [f64; 384],
    q: &mut [f64; 384],
    wide: &mut [f64; 384],
    s: &mut [f32; 384],
    e: &mut [f32; 64],
    out: &mut [f32],
) -> FmState
    requires from_le_end { (from ≤ end) × (end ≤ from + 64) × (end ≤ length out.old) }
    requires reaches { reaches pitch (length lane.now) end }
    requires x_len { (length x.old ≡ 384) × (length c.old ≡ 384) × (length near.old ≡ 384) × (length q.old ≡ 384) × (length wide.old ≡ 384) × (length s.old ≡ 384) }
    requires e_len { length e.old ≡ 64 }
    ensures x_len_2 { (length x.new ≡ 384) × (length c.new ≡ 384) × (length near.new ≡ 384) × (length q.new ≡ 384) × (length wide.new ≡ 384) ×
        (length s.new ≡ 384) }
    ensures e_len_2 { length e.new ≡ 64 }
    ensures carried { Carried (λ i. fm_at (pitch_at pitch lane.now i) knobs gain srf i) (λ o. o.sample) (λ o. o.state)
        from end out.old start out.new result }
{
    let n = end - from;
    let next = phases(pitch, lane, knobs, srf, from, n, start, x, c);
    sin_block::sinf_block(x, n, near, q, wide, s);
    frame_block::decays_before(srf, float::max_f32(knobs.fm_strike, 1e-3), from, end, e);
    bend(knobs, gain, c, e, s, n, x);
    sin_block::sinf_block(x, n, near, q, wide, s);
    copy(s, from, n, out);
    next
}

// The voice reads the note's own gain.
pub fn fm(pitch: Reading, lane: &[f32], knobs: FmKnobs, gain: f32, srf: f32, out: &mut [f32])
    requires reaches { reaches pitch (length lane.now) (length out.old) }
    requires frames { Frames (length out.old) }
    ensures { out.new ≡ fm_frames (pitch_at pitch lane.now) knobs gain srf (length out.old) }
{
    let mut x = [0.0f32; 384];
    let mut c = [0.0f32; 384];
    let mut near = [0.0f64; 384];
    let mut q = [0.0f64; 384];
    let mut wide = [0.0f64; 384];
    let mut s = [0.0f32; 384];
    let mut e = [0.0f32; 64];
    let mut state = FmState { cph: 0.0, mph: 0.0 };
    for i in (0..out.len()).step_by(64) {
        let end = frame_block::block_end(i, out.len());
        state = fm_block(
            pitch, lane, knobs, gain, srf, i, end, state, &mut x, &mut c, &mut near, &mut q,
            &mut wide, &mut s, &mut e, out,
        );
    }
}
