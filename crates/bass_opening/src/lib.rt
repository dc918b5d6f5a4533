// How far the bass's filter opens, for a block of frames at a time: that needs nothing but the frames' times, so that no
// exponential waits for the filter.
#![tactic(auto)]

ghost use Rattle.std.specs.Prelude.{◌≡◌, ◌+◌, ◌≤◌, length};
ghost use Rattle.std.specs.Float.{nan};
ghost use Rattle.blocks.proofs.Block.{Tabled};
ghost use Rattle.bass_opening.specs.Cutoff.{bass_argument_by, bass_opening_at};

use dsl::BassKnobs;

const BASS_CLICK_TAU: f32 = 0.008; // in seconds

// By the exponentials of the envelope and of the click.
fn argument(bass: BassKnobs, gain: f32, srf: f32, env: f32, click: f32) -> f32
    ensures { result ≡ bass_argument_by bass gain srf env click }
{
    let cutoff = bass.bass_cutoff
        + (bass.bass_env + bass.bass_env_vel * gain) * env
        + bass.bass_click * click;
    -dsp::TAU * cutoff / srf
}

// The openings of the frames from `from` on and before `end`.
pub fn openings(bass: BassKnobs, gain: f32, srf: f32, from: usize, end: usize, a: &mut [f32; 64])
    requires from_le_end { (from ≤ end) × (end ≤ from + 64) × (end ≤ 16777216) }
    requires a_len { length a.old ≡ 64 }
    ensures { (length a.new ≡ 64) × Tabled (bass_opening_at bass gain srf) nan from end a.new }
{
    let decay = float::max_f32(bass.bass_decay, 0.001);
    let mut env = [0.0f32; 64];
    frame_block::decays_before(srf, decay, from, end, &mut env);
    let mut click = [0.0f32; 64];
    frame_block::decays_before(srf, BASS_CLICK_TAU, from, end, &mut click);
    let mut x = [0.0f32; 64];
    frame_block::table(
        0,
        64,
        &mut x,
        |i| argument(bass, gain, srf, env[i], click[i]),
    );
    opening_block::openings(&x, a);
}
