// How far the phase moves in each frame of a block.
ghost use Rattle.std.specs.Prelude.{◌≡◌, ◌+◌, ◌≤◌, length};
ghost use Rattle.std.specs.Float.{nan};
ghost use Rattle.blocks.proofs.Block.{Tabled};
ghost use Rattle.dsl.specs.Pitch.{pitch_at, reaches};
ghost use Rattle.osc.specs.Phase.{increment};

use dsl::Reading;

// Of the frames from `from` on and before `end`; f is lent for their pitches.
pub fn steps(
    pitch: Reading,
    lane: &[f32],
    srf: f32,
    from: usize,
    end: usize,
    f: &mut [f32; 64],
    dt: &mut [f32; 64],
)
    requires from_le_end { (from ≤ end) × (end ≤ from + 64) × (length f.old ≡ 64) × (length dt.old ≡ 64) }
    requires reaches { reaches pitch (length lane.now) end }
    ensures f_len { (length f.new ≡ 64) × (length dt.new ≡ 64) }
    ensures tabled { Tabled (λ i. increment (pitch_at pitch lane.now i) srf) nan from end dt.new }
{
    pitch.block(lane, from, end, f);
    // of the places past the block's end too, which nothing reads
    frame_block::table(0, 64, dt, |k| osc::phase_step(f[k], srf));
}
