// The mallet, as of a marimba: a sine with two strike partials, at 3.9 and 9.2 times the pitch, the modes of a wooden
// bar, that die in some tens of milliseconds. A louder note strikes brighter. It is woodier than the electric piano
// and lives shorter. It goes by blocks of up to 64 frames: the phases first, then the sines and the levels of the
// whole block, then the samples.
#![tactic(auto)]

ghost use Rattle.std.specs.Prelude.{◌≡◌, ◌+◌, ◌≤◌, ◌<◌, length};
ghost use Rattle.std.specs.Float.{nan};
ghost use Rattle.blocks.specs.Stored.{stored};
ghost use Rattle.blocks.proofs.Rows.{Rows};
ghost use Rattle.blocks.proofs.Carried.{Carried};
ghost use Rattle.dsl.specs.Domain.{Frames};
ghost use Rattle.dsl.specs.Pitch.{pitch_at, reaches};
ghost use Rattle.voice_mallet.specs.Mallet.{mallet_at, mallet_frames};
ghost use Rattle.voice_mallet.specs.Block.{mallet_next, mallet_reached, mallet_turns, mallet_mix, mallet_mix_at};

use dsl::Reading;

// The phases of the three partials.
#[derive(Clone, Copy)]
pub struct MalletState {
    pub ph0: f32,
    pub ph1: f32,
    pub ph2: f32,
}

// The sample by the sines s0 to s2 and the levels e1 and e2 of the strike partials.
pub fn mallet_mix(gain: f32, s0: f32, s1: f32, s2: f32, e1: f32, e2: f32) -> f32
    ensures { result ≡ mallet_mix gain s0 s1 s2 e1 e2 }
{
    let bright = 0.4 + 0.6 * gain;
    0.7 * (s0 + bright * 0.5 * e1 * s1 + bright * 0.25 * e2 * s2)
}

// The sample of frame k of a block by its sines and the levels of the strike partials.
fn mallet_mix_at(gain: f32, s: &[f32; 384], e1: &[f32; 64], e2: &[f32; 64], k: usize) -> f32
    requires { k < 64 }
    ensures { result ≡ mallet_mix_at gain s.now e1.now e2.now k }
{
    mallet_mix(gain, s[k * 3], s[k * 3 + 1], s[k * 3 + 2], e1[k], e2[k])
}

// The phases before the next frame.
pub fn mallet_next(s: MalletState, dt: f32) -> MalletState
    ensures { result ≡ mallet_next s dt }
{
    MalletState {
        ph0: osc::wrap(s.ph0 + dt),
        ph1: osc::wrap(s.ph1 + dt * 3.9),
        ph2: osc::wrap(s.ph2 + dt * 9.2),
    }
}

// The arguments of the sines of n frames; hands back the state after them.
fn phases(
    pitch: Reading,
    lane: &[f32],
    srf: f32,
    from: usize,
    n: usize,
    start: MalletState,
    x: &mut [f32; 384],
) -> MalletState
    requires n_bound { (n ≤ 64) × (length x.old ≡ 384) }
    requires reaches { reaches pitch (length lane.now) (from + n) }
    ensures x_len { length x.new ≡ 384 }
    ensures rows { Rows 3 (λ k. mallet_turns (mallet_reached (pitch_at pitch lane.now) srf from start k)) nan n x.new }
    ensures value { result ≡ mallet_reached (pitch_at pitch lane.now) srf from start n }
{
    let mut s = start;
    for k in 0..n {
        let turns = [dsp::TAU * s.ph0, dsp::TAU * s.ph1, dsp::TAU * s.ph2];
        frame_block::store(x, k * 3, turns);
        s = mallet_next(s, osc::phase_step(pitch.at(lane, from + k), srf));
    }
    s
}

// The samples of n frames.
fn mix(
    gain: f32,
    s: &[f32; 384],
    e1: &[f32; 64],
    e2: &[f32; 64],
    from: usize,
    n: usize,
    out: &mut [f32],
)
    requires { (n ≤ 64) × (from + n ≤ length out.old) }
    ensures { out.new ≡ stored (mallet_mix_at gain s.now e1.now e2.now) from n out.old }
{
    for k in 0..n {
        out[from + k] = mallet_mix_at(gain, s, e1, e2, k);
    }
}

// The frames from `from` on and before `end`, from the state before them; hands back the state after them. The
// arrays are lent for what lies between.
fn mallet_block(
    pitch: Reading,
    lane: &[f32],
    gain: f32,
    srf: f32,
    from: usize,
    end: usize,
    start: MalletState,
    x: &mut [f32; 384],
    near: &mut [f64; 384],
    q: &mut [f64; 384],
    wide: &mut [f64; 384],
    s: &mut [f32; 384],
    e1: &mut [f32; 64],
    e2: &mut [f32; 64],
    out: &mut [f32],
) -> MalletState
    requires from_le_end { (from ≤ end) × (end ≤ from + 64) × (end ≤ length out.old) }
    requires reaches { reaches pitch (length lane.now) end }
    requires x_len { (length x.old ≡ 384) × (length near.old ≡ 384) × (length q.old ≡ 384) × (length wide.old ≡ 384) × (length s.old ≡ 384) }
    requires e1_len { (length e1.old ≡ 64) × (length e2.old ≡ 64) }
    ensures x_len_2 { (length x.new ≡ 384) × (length near.new ≡ 384) × (length q.new ≡ 384) × (length wide.new ≡ 384) × (length s.new ≡ 384) }
    ensures e1_len_2 { (length e1.new ≡ 64) × (length e2.new ≡ 64) }
    ensures carried { Carried (λ i. mallet_at (pitch_at pitch lane.now i) gain srf i) (λ o. o.sample) (λ o. o.state)
        from end out.old start out.new result }
{
    let n = end - from;
    let next = phases(pitch, lane, srf, from, n, start, x);
    sin_block::sinf_block(x, n * 3, near, q, wide, s);
    frame_block::decays_before(srf, 0.03, from, end, e1);
    frame_block::decays_before(srf, 0.01, from, end, e2);
    mix(gain, s, e1, e2, from, n, out);
    next
}

pub fn mallet_note(pitch: Reading, lane: &[f32], gain: f32, srf: f32, out: &mut [f32])
    requires reaches { reaches pitch (length lane.now) (length out.old) }
    requires frames { Frames (length out.old) }
    ensures { out.new ≡ mallet_frames (pitch_at pitch lane.now) gain srf (length out.old) }
{
    let mut x = [0.0f32; 384];
    let mut near = [0.0f64; 384];
    let mut q = [0.0f64; 384];
    let mut wide = [0.0f64; 384];
    let mut s = [0.0f32; 384];
    let mut e1 = [0.0f32; 64];
    let mut e2 = [0.0f32; 64];
    let mut state = MalletState {
        ph0: 0.0,
        ph1: 0.0,
        ph2: 0.0,
    };
    for i in (0..out.len()).step_by(64) {
        let end = frame_block::block_end(i, out.len());
        state = mallet_block(
            pitch, lane, gain, srf, i, end, state, &mut x, &mut near, &mut q, &mut wide, &mut s,
            &mut e1, &mut e2, out,
        );
    }
}
