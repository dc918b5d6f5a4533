// The struck bell: the hum, prime and tierce of a real bell, five partials at 1, 2.02, 2.74, 4.07 and 5.43 times
// the pitch. Each has its own decay, so that the high ones die first and the hum rings on. A twin of the lowest,
// 0.1 percent sharp, beats slowly with it, which is the shimmer. It goes by blocks of up to 64 frames: the phases
// first, then the sines and the levels of the whole block, then the samples.
#![tactic(auto)]

ghost use Rattle.std.specs.Prelude.{◌≡◌, ◌+◌, ◌≤◌, ◌<◌, length};
ghost use Rattle.std.specs.Float.{nan};
ghost use Rattle.blocks.specs.Stored.{stored};
ghost use Rattle.blocks.proofs.Block.{Tabled};
ghost use Rattle.blocks.proofs.Rows.{Rows};
ghost use Rattle.blocks.proofs.Carried.{Carried};
ghost use Rattle.dsl.specs.Domain.{Frames};
ghost use Rattle.dsl.specs.Pitch.{pitch_at, reaches};
ghost use Rattle.frame_block.specs.Decay.{decay_at};
ghost use Rattle.ieee.specs.Numbers.{c0·25, c0·4, c0·8, c3};
ghost use Rattle.voice_bell.specs.Bell.{c1·5, bell_next, bell_at, bell_frames};
ghost use Rattle.voice_bell.specs.Block.{bell_reached, bell_turns, bell_mix_at};

use dsl::Reading;

// The phases of the five partials and of the twin.
#[derive(Clone, Copy)]
pub struct BellState {
    pub ph0: f32,
    pub ph1: f32,
    pub ph2: f32,
    pub ph3: f32,
    pub ph4: f32,
    pub twin: f32,
}

// The sample of frame k of a block by its sines and the levels of the partials.
fn bell_mix(
    s: &[f32; 384],
    e0: &[f32; 64],
    e1: &[f32; 64],
    e2: &[f32; 64],
    e3: &[f32; 64],
    e4: &[f32; 64],
    k: usize,
) -> f32
    requires { k < 64 }
    ensures { result ≡ bell_mix_at s.now e0.now e1.now e2.now e3.now e4.now k }
{
    let norm = 1.0 / (1.0 + (1.0 + 0.6 + 0.4 + 0.3 + 0.2));
    let at = k * 6;
    (0.0 + 1.0 * e0[k] * s[at]
        + 0.6 * e1[k] * s[at + 1]
        + 0.4 * e2[k] * s[at + 2]
        + 0.3 * e3[k] * s[at + 3]
        + 0.2 * e4[k] * s[at + 4]
        + e0[k] * s[at + 5])
        * norm
}

// The phases before the next frame.
pub fn bell_next(s: BellState, dt: f32) -> BellState
    ensures { result ≡ bell_next s dt }
{
    BellState {
        ph0: osc::wrap(s.ph0 + dt * 1.0),
        ph1: osc::wrap(s.ph1 + dt * 2.02),
        ph2: osc::wrap(s.ph2 + dt * 2.74),
        ph3: osc::wrap(s.ph3 + dt * 4.07),
        ph4: osc::wrap(s.ph4 + dt * 5.43),
        twin: osc::wrap(s.twin + dt * 1.001),
    }
}

// The arguments of the sines of n frames; hands back the state after them.
fn phases(
    pitch: Reading,
    lane: &[f32],
    srf: f32,
    from: usize,
    n: usize,
    start: BellState,
    x: &mut [f32; 384],
) -> BellState
    requires n_bound { (n ≤ 64) × (length x.old ≡ 384) }
    requires reaches { reaches pitch (length lane.now) (from + n) }
    ensures x_len { length x.new ≡ 384 }
    ensures rows { Rows 6 (λ k. bell_turns (bell_reached (pitch_at pitch lane.now) srf from start k)) nan n x.new }
    ensures value { result ≡ bell_reached (pitch_at pitch lane.now) srf from start n }
{
    let mut s = start;
    for k in 0..n {
        let turns = [
            dsp::TAU * s.ph0,
            dsp::TAU * s.ph1,
            dsp::TAU * s.ph2,
            dsp::TAU * s.ph3,
            dsp::TAU * s.ph4,
            dsp::TAU * s.twin,
        ];
        frame_block::store(x, k * 6, turns);
        s = bell_next(s, osc::phase_step(pitch.at(lane, from + k), srf));
    }
    s
}

// The samples of n frames.
fn mix(
    s: &[f32; 384],
    e0: &[f32; 64],
    e1: &[f32; 64],
    e2: &[f32; 64],
    e3: &[f32; 64],
    e4: &[f32; 64],
    from: usize,
    n: usize,
    out: &mut [f32],
)
    requires { (n ≤ 64) × (from + n ≤ length out.old) }
    ensures { out.new ≡ stored (bell_mix_at s.now e0.now e1.now e2.now e3.now e4.now) from n out.old }
{
    for k in 0..n {
        out[from + k] = bell_mix(s, e0, e1, e2, e3, e4, k);
    }
}

// The levels of the partials from frame `from` on and before `end`.
fn levels(
    srf: f32,
    from: usize,
    end: usize,
    e0: &mut [f32; 64],
    e1: &mut [f32; 64],
    e2: &mut [f32; 64],
    e3: &mut [f32; 64],
    e4: &mut [f32; 64],
)
    requires from_le_end { (from ≤ end) × (end ≤ from + 64) × (end ≤ 16777216) }
    requires e0_len { (length e0.old ≡ 64) × (length e1.old ≡ 64) × (length e2.old ≡ 64) × (length e3.old ≡ 64) × (length e4.old ≡ 64) }
    ensures e0_len_2 { (length e0.new ≡ 64) × (length e1.new ≡ 64) × (length e2.new ≡ 64)
        × (length e3.new ≡ 64) × (length e4.new ≡ 64) }
    ensures tabled { Tabled (decay_at srf c3) nan from end e0.new }
    ensures tabled_2 { Tabled (decay_at srf c1·5) nan from end e1.new }
    ensures tabled_3 { Tabled (decay_at srf c0·8) nan from end e2.new }
    ensures tabled_4 { Tabled (decay_at srf c0·4) nan from end e3.new }
    ensures tabled_5 { Tabled (decay_at srf c0·25) nan from end e4.new }
{
    frame_block::decays_before(srf, 3.0, from, end, e0);
    frame_block::decays_before(srf, 1.5, from, end, e1);
    frame_block::decays_before(srf, 0.8, from, end, e2);
    frame_block::decays_before(srf, 0.4, from, end, e3);
    frame_block::decays_before(srf, 0.25, from, end, e4);
}

// The frames from `from` on and before `end`, from the state before them; hands back the state after them. The
// arrays are lent for what lies between.
fn bell_block(
    pitch: Reading,
    lane: &[f32],
    srf: f32,
    from: usize,
    end: usize,
    start: BellState,
    x: &mut [f32; 384],
    near: &mut [f64; 384],
    q: &mut [f64; 384],
    wide: &mut [f64; 384],
    s: &mut [f32; 384],
    e0: &mut [f32; 64],
    e1: &mut [f32; 64],
    e2: &mut [f32; 64],
    e3: &mut [f32; 64],
    e4: &mut [f32; 64],
    out: &mut [f32],
) -> BellState
    requires from_le_end { (from ≤ end) × (end ≤ from + 64) × (end ≤ length out.old) }
    requires reaches { reaches pitch (length lane.now) end }
    requires x_len { (length x.old ≡ 384) × (length near.old ≡ 384) × (length q.old ≡ 384) × (length wide.old ≡ 384) × (length s.old ≡ 384) }
    requires e0_len { (length e0.old ≡ 64) × (length e1.old ≡ 64) × (length e2.old ≡ 64) × (length e3.old ≡ 64) × (length e4.old ≡ 64) }
    ensures x_len_2 { (length x.new ≡ 384) × (length near.new ≡ 384) × (length q.new ≡ 384) × (length wide.new ≡ 384) × (length s.new ≡ 384) }
    ensures e0_len_2 { (length e0.new ≡ 64) × (length e1.new ≡ 64) × (length e2.new ≡ 64) × (length e3.new ≡ 64) × (length
        e4.new ≡ 64) }
    ensures carried { Carried (λ i. bell_at (pitch_at pitch lane.now i) srf i) (λ o. o.sample) (λ o. o.state)
        from end out.old start out.new result }
{
    let n = end - from;
    let next = phases(pitch, lane, srf, from, n, start, x);
    sin_block::sinf_block(x, n * 6, near, q, wide, s);
    levels(srf, from, end, e0, e1, e2, e3, e4);
    mix(s, e0, e1, e2, e3, e4, from, n, out);
    next
}

pub fn bell_note(pitch: Reading, lane: &[f32], srf: f32, out: &mut [f32])
    requires reaches { reaches pitch (length lane.now) (length out.old) }
    requires frames { Frames (length out.old) }
    ensures { out.new ≡ bell_frames (pitch_at pitch lane.now) srf (length out.old) }
{
    let mut x = [0.0f32; 384];
    let mut near = [0.0f64; 384];
    let mut q = [0.0f64; 384];
    let mut wide = [0.0f64; 384];
    let mut s = [0.0f32; 384];
    let mut e0 = [0.0f32; 64];
    let mut e1 = [0.0f32; 64];
    let mut e2 = [0.0f32; 64];
    let mut e3 = [0.0f32; 64];
    let mut e4 = [0.0f32; 64];
    let mut state = BellState {
        ph0: 0.0,
        ph1: 0.0,
        ph2: 0.0,
        ph3: 0.0,
        ph4: 0.0,
        twin: 0.0,
    };
    for i in (0..out.len()).step_by(64) {
        let end = frame_block::block_end(i, out.len());
        state = bell_block(
            pitch, lane, srf, i, end, state, &mut x, &mut near, &mut q, &mut wide, &mut s, &mut e0,
            &mut e1, &mut e2, &mut e3, &mut e4, out,
        );
    }
}
