// The mixer's loop over a stage of the envelope, so that no frame is tested for its stage.
ghost use Rattle.std.specs.Prelude.{◌≡◌, ◌≤◌, length};
ghost use Rattle.std.specs.Float.{nan};
ghost use Rattle.ieee.specs.Numbers.{f32};
ghost use Rattle.ieee.specs.Binary32.{◌⊕◌, ◌⊗◌};
ghost use Rattle.osc.specs.Phase.{seconds};
ghost use Rattle.dsl.specs.Domain.{Frames};
ghost use Rattle.envelope.specs.Envelope.{adsr_env};
ghost use Rattle.envelope.specs.Stages.{InStage};
ghost use Rattle.mix.specs.Mix.{gained_by};
ghost use Rattle.mix.specs.Stretch.{Stretched};

use dsl::Adsr;
use envelope::Stage;

// A frame and what it gains.
fn gained(y: f32, sample: f32, level: f32, gain: f32) -> f32
    ensures { result ≡ y ⊕ sample ⊗ level ⊗ gain }
{
    y + sample * level * gain
}

// The frames from `from` on and below `to`, all of them in one stage. It is inlined where the stage is a constant, so
// that the loop there has no test of it.
#[inline(always)]
pub(crate) fn mix_stage(
    stage: Stage,
    out: &mut [f32],
    note: &[f32],
    from: usize,
    to: usize,
    env: Adsr,
    rel_start: f32,
    rate: u32,
    gain: f32,
)
    requires from_le_to { from ≤ to }
    requires to_in_bounds { to ≤ length note.now }
    requires note_in_bounds { length note.now ≤ length out.old }
    requires frames { Frames (length note.now) }
    requires in_stage { InStage stage env rel_start rate from to }
    ensures { Stretched (gained_by note.now (λ i. adsr_env (seconds (f32 rate) i) env rel_start) gain) nan from to out.old out.new }
{
    let srf = std::num::nearest_u32_to_f32(rate);
    for i in from..to {
        let level = envelope::adsr_env(stage, osc::frame_time(i, srf), env, rel_start);
        out[i] = gained(out[i], note[i], level, gain);
    }
}
