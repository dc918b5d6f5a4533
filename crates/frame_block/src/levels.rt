// Levels of a block, each by the number of its frame alone.
ghost use Rattle.std.specs.Prelude.{◌≡◌, ◌+◌, ◌≤◌, ◌<◌, ℕ, Float, length};
ghost use Rattle.std.specs.Float.{nan};
ghost use Rattle.blocks.proofs.Block.{Tabled};
ghost use Rattle.frame_block.specs.Table.{LevelsBy};

// For each of the frames from `from` on and before `end` what `level` gives at its number, from place 0 on. They are
// those of each rule `by` that answers as `level` does.
pub fn table<F: Fn(usize) -> f32>(from: usize, end: usize, a: &mut [f32; 64], level: F)
    requires from_le_end { (from ≤ end) × (end ≤ from + 64) }
    requires a_len { length a.old ≡ 64 }
    requires callable { (i : ℕ) → from ≤ i → i < end → F.pre level i }
    ensures { (by : ℕ → Float) → LevelsBy (F.post level) by from end → (length a.new ≡ 64) × Tabled by nan from end a.new }
{
    for i in from..end {
        a[i - from] = level(i);
    }
}
