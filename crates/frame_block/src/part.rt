// Levels that fall from a note's start, exponentials of other arguments, and no level, for a block of up to 64 frames.
ghost use Rattle.std.specs.Prelude.{◌≡◌, ◌+◌, ◌≤◌, ◌<◌, length, get_or};
ghost use Rattle.std.specs.Float.{nan};
ghost use Rattle.blocks.proofs.Block.{Tabled};
ghost use Rattle.dsl.specs.Domain.{Frames};
ghost use Rattle.frame_block.specs.Decay.{decay_at};
ghost use Rattle.dsp.specs.Kernels.{exp_of};
ghost use Rattle.ieee.specs.Numbers.{c0};

use crate::decay::{decay_by, decays};
use crate::levels::table;

// The level at frame i.
fn level(srf: f32, decay: f32, i: usize) -> f32
    requires { Frames i }
    ensures { result ≡ decay_at srf decay i }
{
    dsp::exp(decay_by(srf, decay, i))
}

// The levels of 64 frames.
fn decays_whole(srf: f32, decay: f32, from: usize, a: &mut [f32; 64])
    requires from_bound { from + 64 ≤ 16777216 }
    requires a_len { length a.old ≡ 64 }
    ensures { (length a.new ≡ 64) × Tabled (decay_at srf decay) nan from (from + 64) a.new }
{
    let mut x = [0.0f32; 64];
    decays(srf, decay, from, &mut x, a);
}

// A block of fewer frames is cheaper one by one.
const FEW: usize = 40;

// The levels of the frames from `from` on and before `end`. A block is worked out whole, past `end` too, where so many
// frames may be.
pub fn decays_before(srf: f32, decay: f32, from: usize, end: usize, a: &mut [f32; 64])
    requires from_le_end { (from ≤ end) × (end ≤ from + 64) × (end ≤ 16777216) }
    requires a_len { length a.old ≡ 64 }
    ensures { (length a.new ≡ 64) × Tabled (decay_at srf decay) nan from end a.new }
{
    if end - from >= FEW && from <= 16777152 {
        decays_whole(srf, decay, from, a);
    } else {
        table(from, end, a, |i| level(srf, decay, i));
    }
}

// The exponentials of the first n arguments. Where there are many, those of the rest are worked out too.
pub fn exps_before(x: &[f32; 64], n: usize, out: &mut [f32; 64])
    requires n_bound { n ≤ 64 }
    requires out_len { length out.old ≡ 64 }
    ensures { (length out.new ≡ 64) × Tabled (λ k. exp_of (get_or x.now k nan)) nan 0 n out.new }
{
    if n >= FEW {
        exp_block::expf_block(x, out);
    } else {
        table(0, n, out, |i| dsp::exp(x[i]));
    }
}

// No level in the frames from `from` on and before `end`.
pub fn zeros_before(from: usize, end: usize, a: &mut [f32; 64])
    requires from_le_end { (from ≤ end) × (end ≤ from + 64) }
    requires a_len { length a.old ≡ 64 }
    ensures { (length a.new ≡ 64) × Tabled (λ _. c0) nan from end a.new }
{
    table(from, end, a, |_| 0.0);
}
