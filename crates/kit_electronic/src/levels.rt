// The drums that are noise and no more, whose levels need only the frames' times, and the cowbell, whose samples
// do: they stand for its levels.
ghost use Rattle.std.specs.Prelude.{◌≡◌, ◌+◌, ◌≤◌, length};
ghost use Rattle.std.specs.Float.{nan};
ghost use Rattle.blocks.proofs.Block.{Tabled};
ghost use Rattle.osc.specs.Phase.{seconds};
ghost use Rattle.kit_electronic.specs.Block.{electronic_block_level};

use crate::clap::claps_before;
use drum::Drum;
use frame_block::{decays_before, zeros_before};
use voice_cowbell::cowbell_before;

// In the frames from `from` on and before `end`.
pub fn levels(drum: Drum, srf: f32, from: usize, end: usize, a: &mut [f32; 64])
    requires from_le_end { (from ≤ end) × (end ≤ from + 64) × (end ≤ 16777216) }
    requires a_len { length a.old ≡ 64 }
    ensures { (length a.new ≡ 64) × Tabled (λ i. electronic_block_level drum (seconds srf i)) nan from end a.new }
{
    match drum {
        Drum::Clap => claps_before(srf, from, end, a),
        Drum::ClosedHat => decays_before(srf, 0.02, from, end, a),
        Drum::Cowbell => cowbell_before(555.0, srf, from, end, a),
        Drum::Unmapped => decays_before(srf, 0.06, from, end, a),
        _ => zeros_before(from, end, a),
    }
}
