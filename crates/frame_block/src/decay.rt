// Levels that fall from a note's start, for a block of frames at a time, so that no exponential waits
// for another.
ghost use Rattle.std.specs.Prelude.{◌≡◌, ◌+◌, ◌≤◌, length};
ghost use Rattle.std.specs.Float.{nan};
ghost use Rattle.blocks.proofs.Block.{Tabled};
ghost use Rattle.dsl.specs.Domain.{Frames};
ghost use Rattle.frame_block.specs.Decay.{decay_by, decay_at};

use crate::levels::table;

pub(crate) fn decay_by(srf: f32, decay: f32, i: usize) -> f32
    requires { Frames i }
    ensures { result ≡ decay_by srf decay i }
{
    -osc::frame_time(i, srf) / decay
}

// The levels of the 64 frames from `from` on; x is lent for the arguments.
pub fn decays(srf: f32, decay: f32, from: usize, x: &mut [f32; 64], out: &mut [f32; 64])
    requires from_bound { from + 64 ≤ 16777216 }
    requires x_len { (length x.old ≡ 64) × (length out.old ≡ 64) }
    ensures x_len_2 { (length x.new ≡ 64) × (length out.new ≡ 64) }
    ensures tabled { Tabled (λ k. decay_at srf decay (from + k)) nan 0 64 out.new }
{
    table(0, 64, x, |i| decay_by(srf, decay, from + i));
    exp_block::expf_block(x, out);
}
