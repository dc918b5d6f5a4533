// The string ensemble: three saws, detuned by 8 cents down and up and spread in phase, that swell in
// like a bow stroke, made mellow by a one-pole lowpass. It goes by blocks of up to 64 frames: the swell first, then
// the frames in order.
#![tactic(auto)]

ghost use Rattle.std.specs.Prelude.{◌≡◌, length};
ghost use Rattle.dsl.specs.Domain.{Frames};
ghost use Rattle.dsl.specs.Pitch.{pitch_at, reaches};
ghost use Rattle.voice_strings.specs.Strings.{strings_frames};
ghost use Rattle.voice_strings.specs.Block.{strings_by};

use dsl::Reading;
use osc::Out;

// The phases of the saws and the filter's memory.
#[derive(Clone, Copy)]
struct StringsState {
    low: f32,
    mid: f32,
    high: f32,
    lp: f32,
}

// A frame, its swell by the exponential e.
fn strings_by(e: f32, fi: f32, srf: f32, lp_a: f32, s: StringsState) -> Out<StringsState>
    ensures { result ≡ strings_by e fi srf lp_a s }
{
    let f = float::max_f32(fi, 0.0);
    let low_dt = f * 0.99539 / srf;
    let mid_dt = f * 1.0 / srf;
    let high_dt = f * 1.00463 / srf;
    let sum = 0.0 + osc::saw(s.low, low_dt) + osc::saw(s.mid, mid_dt) + osc::saw(s.high, high_dt);
    let low = osc::wrap(s.low + low_dt);
    let mid = osc::wrap(s.mid + mid_dt);
    let high = osc::wrap(s.high + high_dt);
    let lp = s.lp + lp_a * (sum / 3.0 - s.lp);
    let swell = 1.0 - e;
    Out {
        sample: lp * swell,
        state: StringsState { low, mid, high, lp },
    }
}

// In blocks of 64 frames: the exponentials first, and then the frames.
pub fn strings_note(pitch: Reading, lane: &[f32], srf: f32, out: &mut [f32])
    requires reaches { reaches pitch (length lane.now) (length out.old) }
    requires frames { Frames (length out.old) }
    ensures { out.new ≡ strings_frames (pitch_at pitch lane.now) srf (length out.old) }
{
    let lp_a = 1.0 - dsp::exp(-dsp::TAU * 3000.0 / srf);
    let mut s = StringsState {
        low: 0.0,
        mid: 0.33,
        high: 0.67,
        lp: 0.0,
    };
    let mut e = [0.0f32; 64];
    for i in (0..out.len()).step_by(64) {
        let end = frame_block::block_end(i, out.len());
        frame_block::decays_before(srf, 0.12, i, end, &mut e);
        s = frame_block::frames(i, end, s, out, |k, s| {
            strings_by(e[k - i], pitch.at(lane, k), srf, lp_a, s)
        });
    }
}
