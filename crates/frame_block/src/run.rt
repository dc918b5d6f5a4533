// Frames one after another, each from the state that the one before it leaves.
ghost use Rattle.std.specs.Prelude.{ℕ, ◌≤◌, ◌<◌, length};
ghost use Rattle.blocks.proofs.Carried.{Carried};
ghost use Rattle.osc.specs.declared.Out.{Out};
ghost use Rattle.frame_block.specs.Run.{AnswersAs};

use osc::Out;

// The frames from `from` on and before `end`, each by `step`, from the state before them; hands back the state after
// them. They are those of each rule `by` that answers as `step` does.
pub fn frames<S: Copy, F: Fn(usize, S) -> Out<S>>(
    from: usize,
    end: usize,
    start: S,
    out: &mut [f32],
    step: F,
) -> S
    requires from_le_end { (from ≤ end) × (end ≤ length out.old) }
    requires callable { (i : ℕ) (s : S) → from ≤ i → i < end → F.pre step i s }
    ensures { (by : ℕ → S → Out S) → AnswersAs (F.post step) by from end
        → Carried by (λ o. o.sample) (λ o. o.state) from end out.old start out.new result }
{
    let mut s = start;
    for i in from..end {
        let r = step(i, s);
        out[i] = r.sample;
        s = r.state;
    }
    s
}
