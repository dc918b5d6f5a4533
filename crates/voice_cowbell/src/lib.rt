// The cowbell: two partials that clash in the ratio 1.565, as those of an 808 cowbell do, saturated until
// they are near squares, with the fast decay of a knock. Each frame stands by itself, with no state. It
// goes by blocks of up to 64 frames: the arguments of the sines first, then the sines, their tangents and
// the levels of the whole block, then the samples. The drum kits play it too, at a pitch of their own.
#![tactic(auto)]

ghost use Rattle.std.specs.Prelude.{◌≡◌, ◌+◌, ◌*◌, ◌≤◌, ◌<◌, length, get_or};
ghost use Rattle.std.specs.Float.{nan};
ghost use Rattle.ieee.specs.Binary32.{◌⊗◌};
ghost use Rattle.blocks.specs.Stored.{stored};
ghost use Rattle.blocks.proofs.Block.{Tabled};
ghost use Rattle.blocks.proofs.Rows.{Rows};
ghost use Rattle.dsl.specs.Domain.{Frames};
ghost use Rattle.dsl.specs.Pitch.{pitch_at, reaches};
ghost use Rattle.voice_cowbell.specs.Cowbell.{c2·5, cowbell_of, cowbell_at, cowbell_frames};
ghost use Rattle.voice_cowbell.specs.Block.{cowbell_turns, cowbell_mix_at};

use dsl::{Pitch, Reading};

// One sample at the pitch f and the time t.
pub fn cowbell_sample(f: f32, t: f32) -> f32
    ensures { result ≡ cowbell_of f t }
{
    let a = dsp::tanh(2.5 * dsp::sin(dsp::TAU * f * t));
    let b = dsp::tanh(2.5 * dsp::sin(dsp::TAU * f * 1.565 * t));
    0.5 * (a + b) * dsp::exp(-t / 0.09)
}

// The sample of frame k of a block by its tangents and its level.
fn mixed(s: &[f32; 384], e: &[f32; 64], k: usize) -> f32
    requires { k < 64 }
    ensures { result ≡ cowbell_mix_at s.now e.now k }
{
    let a = s[k * 2];
    let b = s[k * 2 + 1];
    0.5 * (a + b) * e[k]
}

// The arguments of the sines of n frames.
fn turns(pitch: Reading, lane: &[f32], srf: f32, from: usize, n: usize, x: &mut [f32; 384])
    requires n_bound { (n ≤ 64) × (length x.old ≡ 384) }
    requires reaches { reaches pitch (length lane.now) (from + n) }
    ensures x_len { length x.new ≡ 384 }
    ensures rows { Rows 2 (λ k. cowbell_turns (pitch_at pitch lane.now (from + k)) srf (from + k)) nan n x.new }
{
    for k in 0..n {
        let f = float::max_f32(pitch.at(lane, from + k), 20.0);
        let t = osc::frame_time(from + k, srf);
        frame_block::store(x, k * 2, [dsp::TAU * f * t, dsp::TAU * f * 1.565 * t]);
    }
}

// The arguments of n tangents, by the sines.
fn driven(s: &[f32; 384], n: usize, x: &mut [f32; 384])
    requires { (n ≤ 384) × (length x.old ≡ 384) }
    ensures { (length x.new ≡ 384) × Tabled (λ j. c2·5 ⊗ get_or s.now j nan) nan 0 n x.new }
{
    for j in 0..n {
        x[j] = 2.5 * s[j];
    }
}

// The samples of n frames.
fn mix(s: &[f32; 384], e: &[f32; 64], n: usize, z: &mut [f32; 64])
    requires { (n ≤ 64) × (length z.old ≡ 64) }
    ensures { (length z.new ≡ 64) × Tabled (cowbell_mix_at s.now e.now) nan 0 n z.new }
{
    for k in 0..n {
        z[k] = mixed(s, e, k);
    }
}

// The samples of the frames from `from` on and before `end`, in z. The other arrays are lent for what lies
// between.
fn cowbell_block(
    pitch: Reading,
    lane: &[f32],
    srf: f32,
    from: usize,
    end: usize,
    x: &mut [f32; 384],
    near: &mut [f64; 384],
    q: &mut [f64; 384],
    wide: &mut [f64; 384],
    s: &mut [f32; 384],
    e: &mut [f32; 64],
    z: &mut [f32; 64],
)
    requires from_le_end { (from ≤ end) × (end ≤ from + 64) }
    requires reaches { reaches pitch (length lane.now) end }
    requires x_len { (length x.old ≡ 384) × (length near.old ≡ 384) × (length q.old ≡ 384) × (length wide.old ≡ 384) × (length s.old ≡ 384) }
    requires e_len { (length e.old ≡ 64) × (length z.old ≡ 64) }
    ensures x_len_2 { (length x.new ≡ 384) × (length near.new ≡ 384) × (length q.new ≡ 384) × (length wide.new ≡ 384) × (length s.new ≡ 384) }
    ensures e_len_2 { (length e.new ≡ 64) × (length z.new ≡ 64) }
    ensures tabled { Tabled (λ i. cowbell_at (pitch_at pitch lane.now i) srf i) nan from end z.new }
{
    let n = end - from;
    turns(pitch, lane, srf, from, n, x);
    sin_block::sinf_block(x, n * 2, near, q, wide, s);
    driven(s, n * 2, x);
    tanh_block::tanhf_block(x, n * 2, near, wide, s);
    frame_block::decays_before(srf, 0.09, from, end, e);
    mix(s, e, n, z);
}

// The samples of a block at the pitch f, in z.
pub fn cowbell_before(f: f32, srf: f32, from: usize, end: usize, z: &mut [f32; 64])
    requires from_le_end { (from ≤ end) × (end ≤ from + 64) × (end ≤ 16777216) }
    requires z_len { length z.old ≡ 64 }
    ensures { (length z.new ≡ 64) × Tabled (cowbell_at f srf) nan from end z.new }
{
    let mut x = [0.0f32; 384];
    let mut near = [0.0f64; 384];
    let mut q = [0.0f64; 384];
    let mut wide = [0.0f64; 384];
    let mut s = [0.0f32; 384];
    let mut e = [0.0f32; 64];
    let lane = [0.0f32; 1];
    let pitch = Reading::new(Pitch::Const(f), 1);
    cowbell_block(
        pitch, &lane, srf, from, end, &mut x, &mut near, &mut q, &mut wide, &mut s, &mut e, z,
    );
}

fn store(z: &[f32; 64], from: usize, n: usize, out: &mut [f32])
    requires { (n ≤ 64) × (from + n ≤ length out.old) }
    ensures { out.new ≡ stored (λ k. get_or z.now k nan) from n out.old }
{
    for k in 0..n {
        out[from + k] = z[k];
    }
}

pub fn cowbell(pitch: Reading, lane: &[f32], srf: f32, out: &mut [f32])
    requires reaches { reaches pitch (length lane.now) (length out.old) }
    requires frames { Frames (length out.old) }
    ensures { out.new ≡ cowbell_frames (pitch_at pitch lane.now) srf (length out.old) }
{
    let mut x = [0.0f32; 384];
    let mut near = [0.0f64; 384];
    let mut q = [0.0f64; 384];
    let mut wide = [0.0f64; 384];
    let mut s = [0.0f32; 384];
    let mut e = [0.0f32; 64];
    let mut z = [0.0f32; 64];
    for i in (0..out.len()).step_by(64) {
        let end = frame_block::block_end(i, out.len());
        cowbell_block(
            pitch, lane, srf, i, end, &mut x, &mut near, &mut q, &mut wide, &mut s, &mut e, &mut z,
        );
        store(&z, i, end - i, out);
    }
}
