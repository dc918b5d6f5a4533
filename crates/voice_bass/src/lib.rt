// The bass, fingered or of a synthesizer: a saw through a one-pole lowpass whose cutoff falls from the attack, higher
// in a louder note, with a pick's click and the grit of some drive, over a sine sub, which a ratio can put an octave
// down. Each number is a knob; nothing is drawn, so that the click is the same in every note. It goes by blocks of up
// to 64 frames: the filter's openings and the fades first, then the frames in order.
#![tactic(auto)]

ghost use Rattle.std.specs.Prelude.{◌≡◌, length};
ghost use Rattle.dsl.specs.Domain.{Frames};
ghost use Rattle.dsl.specs.Pitch.{pitch_at, reaches};
ghost use Rattle.voice_bass.specs.Bass.{drive_of, bass_frames};
ghost use Rattle.voice_bass.specs.Block.{bass_by};

use dsl::{BassKnobs, Reading};
use osc::Out;

// The phases of the saw and of the sub, and the filter's memory.
#[derive(Clone, Copy)]
struct BassState {
    phase: f32,
    sub: f32,
    lp: f32,
}

// From the filtered saw toward its saturation, as far as the drive says.
fn drive(knob: f32, lp: f32) -> f32
    ensures { result ≡ drive_of knob lp }
{
    let drive = float::clamp_f32(knob, 0.0, 1.0);
    lp + drive * (dsp::tanh(lp * (1.0 + 2.0 * drive)) - lp)
}

// A frame, its filter opened by a and its level faded by e.
fn bass_by(a: f32, e: f32, fi: f32, bass: BassKnobs, srf: f32, s: BassState) -> Out<BassState>
    ensures { result ≡ bass_by (record { opening = a; fade = e }) fi bass srf s }
{
    let dt = osc::phase_step(fi, srf);
    let lp = s.lp + a * (osc::saw(s.phase, dt) - s.lp);
    let body = drive(bass.bass_drive, lp);
    let sine = dsp::sin(dsp::TAU * s.sub);
    let sample = (bass.bass_body * body + bass.bass_sub * sine) * e;
    let phase = osc::wrap(s.phase + dt);
    let sub = osc::wrap(s.sub + dt * bass.bass_sub_ratio);
    Out {
        sample,
        state: BassState { phase, sub, lp },
    }
}

// In blocks of 64 frames: the openings and the fades first, and then the frames.
pub fn bass_note(
    pitch: Reading,
    lane: &[f32],
    bass: BassKnobs,
    gain: f32,
    srf: f32,
    out: &mut [f32],
)
    requires reaches { reaches pitch (length lane.now) (length out.old) }
    requires frames { Frames (length out.old) }
    ensures { out.new ≡ bass_frames (pitch_at pitch lane.now) bass gain srf (length out.old) }
{
    let body_decay = float::max_f32(bass.bass_body_decay, 0.001);
    let mut s = BassState {
        phase: 0.0,
        sub: 0.0,
        lp: 0.0,
    };
    let mut a = [0.0f32; 64];
    let mut e = [0.0f32; 64];
    for i in (0..out.len()).step_by(64) {
        let end = frame_block::block_end(i, out.len());
        bass_opening::openings(bass, gain, srf, i, end, &mut a);
        frame_block::decays_before(srf, body_decay, i, end, &mut e);
        s = frame_block::frames(i, end, s, out, |k, s| {
            bass_by(a[k - i], e[k - i], pitch.at(lane, k), bass, srf, s)
        });
    }
}
