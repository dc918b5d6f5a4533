// The sawtooth and the sine, whose state is one phase and which need nothing but their pitch. The
// sawtooth's one jump a period is smoothed by its residual, which keeps it from aliasing.
ghost use Rattle.std.specs.Prelude.{◌≡◌, length};
ghost use Rattle.dsl.specs.Pitch.{pitch_at, reaches};
ghost use Rattle.voice_waves.specs.Plain.{sawtooth_frames, sine_frames};
ghost use Rattle.voice_waves.specs.Block.{sawtooth_by, sine_by};

use crate::phased::stepped;
use dsl::Reading;
use osc::{Out, Shape};

fn sawtooth_by(dt: f32, phase: f32) -> Out<f32>
    ensures { result ≡ sawtooth_by dt phase }
{
    Out {
        sample: osc::saw(phase, dt),
        state: osc::wrap(phase + dt),
    }
}

pub fn sawtooth(pitch: Reading, lane: &[f32], srf: f32, out: &mut [f32])
    requires { reaches pitch (length lane.now) (length out.old) }
    ensures { out.new ≡ sawtooth_frames (pitch_at pitch lane.now) srf (length out.old) }
{
    stepped(pitch, lane, srf, 0.0, sawtooth_by, out);
}

fn sine_by(dt: f32, phase: f32) -> Out<f32>
    ensures { result ≡ sine_by dt phase }
{
    Out {
        sample: osc::osc(Shape::Sine, phase),
        state: osc::wrap(phase + dt),
    }
}

pub fn sine(pitch: Reading, lane: &[f32], srf: f32, out: &mut [f32])
    requires { reaches pitch (length lane.now) (length out.old) }
    ensures { out.new ≡ sine_frames (pitch_at pitch lane.now) srf (length out.old) }
{
    stepped(pitch, lane, srf, 0.0, sine_by, out);
}
