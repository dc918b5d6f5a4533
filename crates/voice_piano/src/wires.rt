// The strings of a piano note as they sound: two for each partial, a little apart in pitch.
ghost use Rattle.std.specs.Prelude.{◌≡◌, ℕ, ◌+◌, ◌*◌, ◌<◌, ◌≤◌, map, length, get_or, take, slice_index_or};
ghost use mathlib.Core.List.{foldl};
ghost use Rattle.std.specs.Float.Ieee.{neg};
ghost use Rattle.std.specs.Float.{nan};
ghost use Rattle.ieee.specs.Numbers.{c0};
ghost use Rattle.ieee.specs.Binary32.{◌⊗◌};
ghost use Rattle.blocks.specs.Stored.{written};
ghost use Rattle.blocks.proofs.Rows.{Rows};
ghost use Rattle.dsp.specs.Kernels.{TAU, sin_of};
ghost use Rattle.voice_piano.specs.Wires.{pair_of, added, moved, amp_added};
ghost use Rattle.voice_piano.specs.Block.{turns_of, no_partial};

use crate::hammer::Partial;

// What the two strings' pitches are multiplied by.
#[derive(Clone, Copy)]
pub struct Pair {
    pub first: f32,
    pub second: f32,
}

// A partial's frame: the sum with its two strings added, and the partial before the next frame.
#[derive(Clone, Copy)]
pub struct PartialOut {
    pub sum: f32,
    pub partial: Partial,
}

// A frame of all partials.
#[derive(Clone, Copy)]
pub struct WiresOut {
    pub sum: f32,
    pub items: [Partial; 18],
}

pub fn string_pair(spread: f32) -> Pair
    ensures { result ≡ pair_of spread }
{
    let detune = 1.0 + (1.0006 - 1.0) * spread;
    Pair {
        first: 1.0 / detune,
        second: detune,
    }
}

// A partial's frame, whose strings' sines are s0 and s1.
fn partial_at(p: Partial, dt: f32, det: Pair, sum: f32, s0: f32, s1: f32) -> PartialOut
    requires { (s0 ≡ sin_of (TAU ⊗ p.phase0)) × (s1 ≡ sin_of (TAU ⊗ p.phase1)) }
    ensures { (result.sum ≡ added sum p) × (result.partial ≡ moved dt det p) }
{
    let inc = dt * p.step;
    let a = p.amp * p.env;
    let one = sum + a * s0;
    let both = one + a * s1;
    let partial = Partial {
        step: p.step,
        amp: p.amp,
        env: p.env * p.dmul,
        dmul: p.dmul,
        phase0: osc::wrap(p.phase0 + inc * det.first),
        phase1: osc::wrap(p.phase1 + inc * det.second),
    };
    PartialOut { sum: both, partial }
}

fn store_turns(x: &mut [f32; 384], j: usize, p: Partial)
    requires { (j < 18) × (length x.old ≡ 384) }
    ensures { x.new ≡ written x.old (j * 2) (turns_of p) }
{
    frame_block::store(x, j * 2, [dsp::TAU * p.phase0, dsp::TAU * p.phase1]);
}

// The arguments of the first `count` partials' sines, two for each.
fn turns(items: [Partial; 18], count: usize, x: &mut [f32; 384])
    requires { (count ≤ 18) × (length x.old ≡ 384) }
    ensures { (length x.new ≡ 384) × Rows 2 (λ j. turns_of (slice_index_or items j no_partial)) nan count x.new }
{
    for j in 0..count {
        let p = items[j];
        store_turns(x, j, p);
    }
}

// A frame of the first `count` partials, in order, by their sines.
fn wires_by(items: [Partial; 18], count: usize, dt: f32, det: Pair, s: &[f32; 384]) -> WiresOut
    requires count_bound { count ≤ 18 }
    requires by_index { (j : ℕ) → j < count → (slice_index_or s.now (j * 2) nan ≡ sin_of (TAU ⊗ (get_or items j no_partial).phase0))
        × (slice_index_or s.now (j * 2 + 1) nan ≡ sin_of (TAU ⊗ (get_or items j no_partial).phase1)) }
    ensures { (result.sum ≡ foldl added c0 (take count items)) × (take count result.items ≡ map (moved dt det) (take count items)) }
{
    let mut parts = items;
    let mut sum = 0.0f32;
    for j in 0..count {
        let p = parts[j];
        let r = partial_at(p, dt, det, sum, s[j * 2], s[j * 2 + 1]);
        let q = r.partial;
        parts[j] = q;
        sum = r.sum;
    }
    WiresOut { sum, items: parts }
}

// A frame of the first `count` partials, in order. The arrays are lent for their sines.
pub fn wires_at(
    items: [Partial; 18],
    count: usize,
    dt: f32,
    det: Pair,
    x: &mut [f32; 384],
    near: &mut [f64; 384],
    q: &mut [f64; 384],
    wide: &mut [f64; 384],
    s: &mut [f32; 384],
) -> WiresOut
    requires count_bound { count ≤ 18 }
    requires x_len { (length x.old ≡ 384) × (length near.old ≡ 384) × (length q.old ≡ 384) × (length wide.old ≡ 384) × (length s.old ≡ 384) }
    ensures x_len_2 { (length x.new ≡ 384) × (length near.new ≡ 384) × (length q.new ≡ 384) × (length wide.new ≡ 384) × (length s.new ≡ 384) }
    ensures sum_value { (result.sum ≡ foldl added c0 (take count items)) × (take count result.items ≡ map (moved dt det) (take count items)) }
{
    turns(items, count, x);
    sin_block::sinf_block(x, count * 2, near, q, wide, s);
    wires_by(items, count, dt, det, s)
}

// The sum of their amplitudes, from -0 on as Rust's `sum` has it.
pub fn amp_sum(items: [Partial; 18], count: usize) -> f32
    requires { count ≤ 18 }
    ensures { result ≡ foldl amp_added (neg c0) (take count items) }
{
    let mut sum = -0.0f32;
    for j in 0..count {
        let p = items[j];
        sum = sum + p.amp;
    }
    sum
}
