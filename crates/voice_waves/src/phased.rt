// A wave whose frames need nothing but the step of their phase. In blocks of 64 frames: the steps first, and then the
// frames.
ghost use Rattle.std.specs.Prelude.{◌≡◌, Float, length};
ghost use Rattle.laws.specs.Run.{samples};
ghost use Rattle.dsl.specs.Pitch.{pitch_at, reaches};
ghost use Rattle.osc.specs.Phase.{increment};
ghost use Rattle.osc.specs.declared.Out.{Out};
ghost use Rattle.voice_waves.specs.Stepped.{StepsAs};

use crate::steps::steps;
use dsl::Reading;
use osc::Out;

// Each frame by `by`, from its step and the state before it. The wave is that of each rule that answers as `by` does.
pub fn stepped<S: Copy, F: Fn(f32, S) -> Out<S>>(
    pitch: Reading,
    lane: &[f32],
    srf: f32,
    start: S,
    by: F,
    out: &mut [f32],
)
    requires reaches { reaches pitch (length lane.now) (length out.old) }
    requires callable { (dt : Float) (s : S) → F.pre by dt s }
    ensures { (rule : Float → S → Out S) → StepsAs (F.post by) rule
        → out.new ≡ samples (λ i. rule (increment (pitch_at pitch lane.now i) srf)) (λ r. r.sample) (λ r. r.state) start (length out.old) }
{
    let mut s = start;
    let mut f = [0.0f32; 64];
    let mut dt = [0.0f32; 64];
    for i in (0..out.len()).step_by(64) {
        let end = frame_block::block_end(i, out.len());
        steps(pitch, lane, srf, i, end, &mut f, &mut dt);
        s = frame_block::frames(i, end, s, out, |k, s| by(dt[k - i], s));
    }
}
