// The drums that are noise and no more, whose levels need only the frames' times, and the cowbell, whose samples
// do: they stand for its levels.
ghost use Rattle.std.specs.Prelude.{◌≡◌, ◌+◌, ◌≤◌, length};
ghost use Rattle.std.specs.Float.{nan};
ghost use Rattle.blocks.proofs.Block.{Tabled};
ghost use Rattle.osc.specs.Phase.{seconds};
ghost use Rattle.kit_acoustic.specs.Block.{open_hat_mix, acoustic_open_hat_level, acoustic_block_level};

use crate::clap::clap_levels;
use drum::Drum;
use frame_block::{decays_before, table, zeros_before};
use voice_cowbell::cowbell_before;

fn open_hat_mix(slow: f32, fast: f32) -> f32
    ensures { result ≡ open_hat_mix slow fast }
{
    0.85 * slow + 0.15 * fast
}

fn open_hat_levels(srf: f32, from: usize, end: usize, a: &mut [f32; 64])
    requires from_le_end { (from ≤ end) × (end ≤ from + 64) × (end ≤ 16777216) }
    requires a_len { length a.old ≡ 64 }
    ensures { (length a.new ≡ 64) × Tabled (λ i. acoustic_open_hat_level (seconds srf i)) nan from end a.new }
{
    let mut slow = [0.0f32; 64];
    let mut fast = [0.0f32; 64];
    decays_before(srf, 0.32, from, end, &mut slow);
    decays_before(srf, 0.08, from, end, &mut fast);
    table(0, 64, a, |i| open_hat_mix(slow[i], fast[i]));
}

// In the frames from `from` on and before `end`.
pub fn levels(drum: Drum, srf: f32, from: usize, end: usize, a: &mut [f32; 64])
    requires from_le_end { (from ≤ end) × (end ≤ from + 64) × (end ≤ 16777216) }
    requires a_len { length a.old ≡ 64 }
    ensures { (length a.new ≡ 64) × Tabled (λ i. acoustic_block_level drum (seconds srf i)) nan from end a.new }
{
    match drum {
        Drum::Clap => clap_levels(srf, from, end, a),
        Drum::ClosedHat => decays_before(srf, 0.032, from, end, a),
        Drum::OpenHat => open_hat_levels(srf, from, end, a),
        Drum::Cowbell => cowbell_before(540.0, srf, from, end, a),
        Drum::Unmapped => decays_before(srf, 0.08, from, end, a),
        _ => zeros_before(from, end, a),
    }
}
