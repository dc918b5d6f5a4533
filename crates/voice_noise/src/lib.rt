// White noise: one draw `bi` a frame, in order, which is also what a plucked string starts as. It has
// no pitch and reads no knob.
#![tactic(auto)]

ghost use Rattle.std.specs.Prelude.{◌≡◌, length};
ghost use Rattle.rng.specs.SplitMix64.{state_after};
ghost use Rattle.voice_noise.specs.Noise.{noise_frames};

use rng::Rng;

// Hands back the generator after one draw a frame.
pub fn noise(rng: Rng, out: &mut [f32]) -> Rng
    ensures out_after { out.new ≡ noise_frames rng.0 (length out.old) }
    ensures result_value { result.0 ≡ state_after rng.0 (length out.old) }
{
    let mut rng = rng;
    for i in 0..out.len() {
        let d = rng.bi();
        out[i] = d.value;
        rng = d.rng;
    }
    rng
}
