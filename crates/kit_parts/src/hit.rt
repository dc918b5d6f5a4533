// A hit by blocks of 64 frames: the levels first, and then the frames in order.
ghost use Rattle.std.specs.Prelude.{◌≡◌, ◌+◌, ◌≤◌, ℕ, Float, length};
ghost use Rattle.std.specs.Float.{nan};
ghost use Rattle.blocks.proofs.Block.{Tabled};
ghost use Rattle.laws.proofs.Fill.{Filled};
ghost use Rattle.dsl.specs.Domain.{Frames};
ghost use Rattle.osc.specs.declared.Out.{Out};

use osc::Out;

// What the frames of a hit share: its drum, the rate, and the filters of its style.
pub trait Hit {
    type State: Copy + Drop;

    // The level of a frame.
    ghost level_at: { Self → ℕ → Float };

    // A frame whose level is given, from the state before it.
    ghost frame_by: { Self → Float → ℕ → Self.State → Out Self.State };

    // The levels of the frames from `from` on and before `end`.
    fn levels(&self, from: usize, end: usize, a: &mut [f32; 64])
        requires from_le_end { (from ≤ end) × (end ≤ from + 64) × (end ≤ 16777216) }
        requires a_len { length a.old ≡ 64 }
        ensures { (length a.new ≡ 64) × Tabled (level_at self.now) nan from end a.new };

    // A frame at its time, or by its level where that is all that the time gives it.
    fn frame(&self, level: f32, i: usize, s: Self::State) -> Out<Self::State>
        requires { Frames i }
        ensures { result ≡ frame_by self.now level i s };
}

// The frames of a hit from its first state; hands back its last.
pub fn hit_frames<H: Hit>(hit: &H, start: H::State, out: &mut [f32]) -> H::State
    requires { Frames (length out.old) }
    ensures { Filled (λ i. H.frame_by hit.now (H.level_at hit.now i) i) (λ o. o.sample) (λ o. o.state)
        start out.old (length out.old) out.new result }
{
    let mut s = start;
    let mut a = [0.0f32; 64];
    for i in (0..out.len()).step_by(64) {
        let end = frame_block::block_end(i, out.len());
        hit.levels(i, end, &mut a);
        s = frame_block::frames(i, end, s, out, |k, s| hit.frame(a[k - i], k, s));
    }
    s
}
