// Brass: two saws, detuned by 0.4 percent down and up, and half a turn apart so that the onset is no click, through a
// one-pole lowpass whose cutoff swells from 800 to 2,200 hertz over the first 70 ms, the blat of a horn's lip reed.
// A louder note opens it further. It goes by blocks of up to 64 frames: the filter's openings first, then the frames
// in order.
#![tactic(auto)]

ghost use Rattle.std.specs.Prelude.{◌≡◌, length};
ghost use Rattle.dsl.specs.Domain.{Frames};
ghost use Rattle.dsl.specs.Pitch.{pitch_at, reaches};
ghost use Rattle.voice_brass.specs.Brass.{brass_frames};
ghost use Rattle.voice_brass.specs.Block.{brass_by};

use dsl::Reading;
use osc::Out;

// The phases of the saws, spread so that the onset is no click, and the filter's memory.
#[derive(Clone, Copy)]
struct BrassState {
    low: f32,
    high: f32,
    lp: f32,
}

// A frame, its filter opened by a.
fn brass_by(a: f32, fi: f32, srf: f32, s: BrassState) -> Out<BrassState>
    ensures { result ≡ brass_by a fi srf s }
{
    let f = float::max_f32(fi, 0.0);
    let low_dt = f * 0.996 / srf;
    let high_dt = f * 1.004 / srf;
    let sum = 0.0 + osc::saw(s.low, low_dt) + osc::saw(s.high, high_dt);
    let low = osc::wrap(s.low + low_dt);
    let high = osc::wrap(s.high + high_dt);
    let lp = s.lp + a * (sum * 0.5 - s.lp);
    Out {
        sample: lp,
        state: BrassState { low, high, lp },
    }
}

// In blocks of 64 frames: the openings first, and then the frames that they filter.
pub fn brass_note(pitch: Reading, lane: &[f32], gain: f32, srf: f32, out: &mut [f32])
    requires reaches { reaches pitch (length lane.now) (length out.old) }
    requires frames { Frames (length out.old) }
    ensures { out.new ≡ brass_frames (pitch_at pitch lane.now) gain srf (length out.old) }
{
    let mut s = BrassState {
        low: 0.0,
        high: 0.5,
        lp: 0.0,
    };
    let mut a = [0.0f32; 64];
    for i in (0..out.len()).step_by(64) {
        let end = frame_block::block_end(i, out.len());
        brass_opening::openings(gain, srf, i, end, &mut a);
        s = frame_block::frames(i, end, s, out, |k, s| {
            brass_by(a[k - i], pitch.at(lane, k), srf, s)
        });
    }
}
