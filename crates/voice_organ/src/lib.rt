// The tonewheel organ: five drawbars, of which `BARS` has 16', 8', 4', 2 2/3' and 2', and a percussion, a third
// harmonic that pings on the attack and fades in 200 ms. The phase runs at half the pitch, so that the 16' bar is a
// whole partial too, and each bar of a whole ratio wraps without a jump. It goes by blocks of up to 64 frames: the
// phases first, then the sines and the percussion's levels of the whole block, then the samples.
#![tactic(auto)]

ghost use Rattle.std.specs.Prelude.{◌≡◌, ℕ, ◌+◌, ◌*◌, ◌≤◌, ◌<◌, length, get_or};
ghost use Rattle.std.specs.Float.{nan};
ghost use Rattle.blocks.specs.Stored.{stored};
ghost use Rattle.blocks.proofs.Block.{Tabled};
ghost use Rattle.blocks.proofs.Rows.{Rows};
ghost use Rattle.blocks.proofs.Carried.{Carried};
ghost use Rattle.dsl.specs.Domain.{Frames};
ghost use Rattle.dsl.specs.Drawbars.{c6};
ghost use Rattle.dsl.specs.Pitch.{pitch_at, reaches};
ghost use Rattle.trig.specs.Single.{sinf_of};
ghost use Rattle.voice_organ.specs.Organ.{organ_norm, organ_at, organ_frames};
ghost use Rattle.voice_organ.specs.Block.{organ_turns, organ_sixth_turn, organ_mix_at, organ_next, organ_reached};

use dsl::{Drawbars, Reading};

fn norm_of(bars: Drawbars) -> f32
    ensures { result ≡ organ_norm bars }
{
    1.0 / (bars.level1 + bars.level2 + bars.level3 + bars.level4 + bars.level5)
}

// The sample of frame k of a block by its bars' sines s, the percussion's p and its levels e.
fn organ_mix(
    bars: Drawbars,
    norm: f32,
    s: &[f32; 384],
    p: &[f32; 384],
    e: &[f32; 64],
    k: usize,
) -> f32
    requires { k < 64 }
    ensures { result ≡ organ_mix_at bars norm s.now p.now e.now k }
{
    let at = k * 5;
    (0.0 + bars.level1 * s[at]
        + bars.level2 * s[at + 1]
        + bars.level3 * s[at + 2]
        + bars.level4 * s[at + 3]
        + bars.level5 * s[at + 4]
        + 0.5 * e[k] * p[k])
        * norm
}

// The phase after a frame of the pitch fi.
pub fn organ_next(fi: f32, srf: f32, phase: f32) -> f32
    ensures { result ≡ organ_next fi srf phase }
{
    osc::wrap(phase + float::max_f32(fi, 0.0) / 2.0 / srf)
}

// The arguments of the sines of n frames, the bars' in x and the percussion's in y; hands back the phase
// after them.
fn phases(
    bars: Drawbars,
    pitch: Reading,
    lane: &[f32],
    srf: f32,
    from: usize,
    n: usize,
    start: f32,
    x: &mut [f32; 384],
    y: &mut [f32; 384],
) -> f32
    requires n_bound { (n ≤ 64) × (length x.old ≡ 384) × (length y.old ≡ 384) }
    requires reaches { reaches pitch (length lane.now) (from + n) }
    ensures x_len { (length x.new ≡ 384) × (length y.new ≡ 384) }
    ensures rows { Rows 5 (λ k. organ_turns bars (organ_reached (pitch_at pitch lane.now) srf from start k)) nan n x.new }
    ensures tabled { Tabled (λ k. organ_sixth_turn (organ_reached (pitch_at pitch lane.now) srf from start k)) nan 0 n y.new }
    ensures value { result ≡ organ_reached (pitch_at pitch lane.now) srf from start n }
{
    let mut s = start;
    for k in 0..n {
        let turn = dsp::TAU * s;
        let turns = [
            turn * bars.ratio1,
            turn * bars.ratio2,
            turn * bars.ratio3,
            turn * bars.ratio4,
            turn * bars.ratio5,
        ];
        frame_block::store(x, k * 5, turns);
        y[k] = turn * 6.0;
        s = organ_next(pitch.at(lane, from + k), srf, s);
    }
    s
}

// The fourth bar's sines of n frames.
fn fourths(s: &[f32; 384], n: usize, p: &mut [f32; 384])
    requires { (n ≤ 64) × (length p.old ≡ 384) }
    ensures { (length p.new ≡ 384) × Tabled (λ k. get_or s.now (k * 5 + 3) nan) nan 0 n p.new }
{
    for k in 0..n {
        p[k] = s[k * 5 + 3];
    }
}

// The percussion's sines of n frames. They are the fourth bar's where its ratio is 6, as in `BARS`.
fn sixths(
    ratio4: f32,
    s: &[f32; 384],
    y: &[f32; 384],
    n: usize,
    near: &mut [f64; 384],
    q: &mut [f64; 384],
    wide: &mut [f64; 384],
    p: &mut [f32; 384],
)
    requires n_bound { n ≤ 64 }
    requires nan_value { ratio4 ≡ c6 → (k : ℕ) → k < n → get_or s.now (k * 5 + 3) nan ≡ sinf_of (get_or y.now k nan) }
    requires near_len { (length near.old ≡ 384) × (length q.old ≡ 384) × (length wide.old ≡ 384) × (length p.old ≡ 384) }
    ensures near_len_2 { (length near.new ≡ 384) × (length q.new ≡ 384) × (length wide.new ≡ 384) × (length p.new ≡ 384) }
    ensures tabled { Tabled (λ k. sinf_of (get_or y.now k nan)) nan 0 n p.new }
{
    if ratio4 == 6.0 {
        fourths(s, n, p);
    } else {
        sin_block::sinf_block(y, n, near, q, wide, p);
    }
}

// The samples of n frames.
fn mix(
    bars: Drawbars,
    norm: f32,
    s: &[f32; 384],
    p: &[f32; 384],
    e: &[f32; 64],
    from: usize,
    n: usize,
    out: &mut [f32],
)
    requires { (n ≤ 64) × (from + n ≤ length out.old) }
    ensures { out.new ≡ stored (organ_mix_at bars norm s.now p.now e.now) from n out.old }
{
    for k in 0..n {
        out[from + k] = organ_mix(bars, norm, s, p, e, k);
    }
}

// The frames from `from` on and before `end`, from the phase before them; hands back the phase after them. The
// arrays are lent for what lies between.
fn organ_block(
    bars: Drawbars,
    norm: f32,
    pitch: Reading,
    lane: &[f32],
    srf: f32,
    from: usize,
    end: usize,
    start: f32,
    x: &mut [f32; 384],
    y: &mut [f32; 384],
    near: &mut [f64; 384],
    q: &mut [f64; 384],
    wide: &mut [f64; 384],
    s: &mut [f32; 384],
    p: &mut [f32; 384],
    e: &mut [f32; 64],
    out: &mut [f32],
) -> f32
    requires from_le_end { (from ≤ end) × (end ≤ from + 64) × (end ≤ length out.old) }
    requires reaches { reaches pitch (length lane.now) end }
    requires x_len { (length x.old ≡ 384) × (length near.old ≡ 384) × (length q.old ≡ 384) × (length wide.old ≡ 384) × (length s.old ≡ 384) }
    requires y_len { (length y.old ≡ 384) × (length p.old ≡ 384) × (length e.old ≡ 64) }
    ensures x_len_2 { (length x.new ≡ 384) × (length near.new ≡ 384) × (length q.new ≡ 384) × (length wide.new ≡ 384) × (length s.new ≡ 384) }
    ensures y_len_2 { (length y.new ≡ 384) × (length p.new ≡ 384) × (length e.new ≡ 64) }
    ensures carried { Carried (λ i. organ_at bars norm (pitch_at pitch lane.now i) srf i) (λ o. o.sample) (λ o. o.state)
        from end out.old start out.new result }
{
    let n = end - from;
    let next = phases(bars, pitch, lane, srf, from, n, start, x, y);
    sin_block::sinf_block(x, n * 5, near, q, wide, s);
    sixths(bars.ratio4, s, y, n, near, q, wide, p);
    frame_block::decays_before(srf, 0.2, from, end, e);
    mix(bars, norm, s, p, e, from, n, out);
    next
}

pub fn organ_note(bars: Drawbars, pitch: Reading, lane: &[f32], srf: f32, out: &mut [f32])
    requires reaches { reaches pitch (length lane.now) (length out.old) }
    requires frames { Frames (length out.old) }
    ensures { out.new ≡ organ_frames bars (pitch_at pitch lane.now) srf (length out.old) }
{
    let norm = norm_of(bars);
    let mut x = [0.0f32; 384];
    let mut y = [0.0f32; 384];
    let mut near = [0.0f64; 384];
    let mut q = [0.0f64; 384];
    let mut wide = [0.0f64; 384];
    let mut s = [0.0f32; 384];
    let mut p = [0.0f32; 384];
    let mut e = [0.0f32; 64];
    let mut state = 0.0f32;
    for i in (0..out.len()).step_by(64) {
        let end = frame_block::block_end(i, out.len());
        state = organ_block(
            bars, norm, pitch, lane, srf, i, end, state, &mut x, &mut y, &mut near, &mut q,
            &mut wide, &mut s, &mut p, &mut e, out,
        );
    }
}
