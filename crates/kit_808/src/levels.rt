// The drums that are noise and no more: their levels need only the frames' times.
ghost use Rattle.std.specs.Prelude.{◌≡◌, ◌+◌, ◌-◌, ◌≤◌, length, get_or};
ghost use Rattle.std.specs.Float.{nan};
ghost use Rattle.blocks.proofs.Block.{Tabled};
ghost use Rattle.osc.specs.Phase.{seconds};
ghost use Rattle.drum.specs.declared.Drum.TheVariants.{Clap};
ghost use Rattle.kit_808.specs.Block.{eight08_clap_level, eight08_level};

use crate::drums::burst;
use drum::Drum;
use frame_block::{decays_before, zeros_before};

// A clap's level at the time t; x is its tail's.
fn clap_level(t: f32, x: f32) -> f32
    ensures { result ≡ eight08_clap_level t x }
{
    burst(t) + 0.55 * x
}

fn clap_levels(srf: f32, from: usize, end: usize, a: &mut [f32; 64])
    requires from_le_end { (from ≤ end) × (end ≤ from + 64) × (end ≤ 16777216) }
    requires a_len { length a.old ≡ 64 }
    ensures { (length a.new ≡ 64) × Tabled (λ i. eight08_level Clap (seconds srf i)) nan from end a.new }
{
    let mut tail = [0.0f32; 64];
    decays_before(srf, 0.12, from, end, &mut tail);
    kit_parts::at_times(srf, from, end, a, |i, t| clap_level(t, tail[i - from]));
}

// In the frames from `from` on and before `end`.
pub fn levels(drum: Drum, srf: f32, from: usize, end: usize, a: &mut [f32; 64])
    requires from_le_end { (from ≤ end) × (end ≤ from + 64) × (end ≤ 16777216) }
    requires a_len { length a.old ≡ 64 }
    ensures { (length a.new ≡ 64) × Tabled (λ i. eight08_level drum (seconds srf i)) nan from end a.new }
{
    match drum {
        Drum::Clap => clap_levels(srf, from, end, a),
        Drum::Unmapped => decays_before(srf, 0.08, from, end, a),
        _ => zeros_before(from, end, a),
    }
}
