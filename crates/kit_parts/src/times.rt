// Levels by the frames' times alone.
ghost use Rattle.std.specs.Prelude.{◌≡◌, ◌+◌, ◌≤◌, ◌<◌, ℕ, Float, length};
ghost use Rattle.std.specs.Float.{nan};
ghost use Rattle.blocks.proofs.Block.{Tabled};
ghost use Rattle.osc.specs.Phase.{seconds};
ghost use Rattle.kit_parts.specs.Times.{LevelsAs};

// In each of the frames from `from` on and before `end` what `level` gives at its number and time. They are those
// of each rule `by` that answers as `level` does.
pub fn at_times<F: Fn(usize, f32) -> f32>(
    srf: f32,
    from: usize,
    end: usize,
    a: &mut [f32; 64],
    level: F,
)
    requires from_le_end { (from ≤ end) × (end ≤ from + 64) × (end ≤ 16777216) }
    requires a_len { length a.old ≡ 64 }
    requires callable { (i : ℕ) (t : Float) → from ≤ i → i < end → F.pre level i t }
    ensures a_len { length a.new ≡ 64 }
    ensures tabled { (by : ℕ → Float) → LevelsAs (F.post level) by srf from end → Tabled by nan from end a.new }
{
    for i in from..end {
        a[i - from] = level(i, osc::frame_time(i, srf));
    }
}
