// The levels of a clap: a burst each 10 milliseconds for 30 of them, and then a tail.
ghost use Rattle.std.specs.Prelude.{◌≡◌, ◌+◌, ◌≤◌, length};
ghost use Rattle.std.specs.Float.{nan};
ghost use Rattle.blocks.proofs.Block.{Tabled};
ghost use Rattle.osc.specs.Phase.{seconds};
ghost use Rattle.kit_electronic.specs.Drums.{claps_of};
ghost use Rattle.kit_electronic.specs.Block.{clap_argument};

// The level at the time t is the exponential of this.
fn clap_argument(t: f32) -> f32
    ensures { result ≡ clap_argument t }
{
    if t < 0.03 {
        return -(remainder::rem_f32(t, 0.01) / 0.003);
    }
    -(t - 0.03) / 0.10
}

// The levels of the frames from `from` on and before `end`.
pub fn claps_before(srf: f32, from: usize, end: usize, a: &mut [f32; 64])
    requires from_le_end { (from ≤ end) × (end ≤ from + 64) × (end ≤ 16777216) }
    requires a_len { length a.old ≡ 64 }
    ensures { (length a.new ≡ 64) × Tabled (λ i. claps_of (seconds srf i)) nan from end a.new }
{
    let mut x = [0.0f32; 64];
    kit_parts::at_times(srf, from, end, &mut x, |_, t| clap_argument(t));
    frame_block::exps_before(&x, end - from, a);
}
