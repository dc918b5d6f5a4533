// How far brass's filter opens, for a block of frames at a time: that needs nothing but the frames' times, so that no
// exponential waits for the filter.
#![tactic(auto)]

ghost use Rattle.std.specs.Prelude.{◌≡◌, ◌+◌, ◌≤◌, length};
ghost use Rattle.std.specs.Float.{nan};
ghost use Rattle.blocks.proofs.Block.{Tabled};
ghost use Rattle.dsl.specs.Domain.{Frames};
ghost use Rattle.brass_opening.specs.Opening.{cutoff_by, opening_at};

// How far the filter opens at frame i.
fn opening(gain: f32, srf: f32, i: usize) -> f32
    requires { Frames i }
    ensures { result ≡ opening_at gain srf i }
{
    let t = osc::frame_time(i, srf);
    let cutoff = 800.0 + (1400.0 + 1200.0 * gain) * (1.0 - dsp::exp(-t / 0.07));
    1.0 - dsp::exp(-dsp::TAU * float::min_f32(cutoff, 0.45 * srf) / srf)
}

fn cutoff(gain: f32, srf: f32, e: f32) -> f32
    ensures { result ≡ cutoff_by gain srf e }
{
    let c = 800.0 + (1400.0 + 1200.0 * gain) * (1.0 - e);
    -dsp::TAU * float::min_f32(c, 0.45 * srf) / srf
}

// The openings of 64 frames.
fn openings_whole(gain: f32, srf: f32, from: usize, a: &mut [f32; 64])
    requires from_bound { from + 64 ≤ 16777216 }
    requires a_len { length a.old ≡ 64 }
    ensures { (length a.new ≡ 64) × Tabled (opening_at gain srf) nan from (from + 64) a.new }
{
    let mut e = [0.0f32; 64];
    frame_block::decays_before(srf, 0.07, from, from + 64, &mut e);
    let mut u = [0.0f32; 64];
    frame_block::table(0, 64, &mut u, |i| cutoff(gain, srf, e[i]));
    opening_block::openings(&u, a);
}

// A block of fewer frames is cheaper one by one.
const FEW: usize = 40;

// The openings of the frames from `from` on and before `end`. A block is worked out whole, past `end` too, where so many
// frames may be.
pub fn openings(gain: f32, srf: f32, from: usize, end: usize, a: &mut [f32; 64])
    requires from_le_end { (from ≤ end) × (end ≤ from + 64) × (end ≤ 16777216) }
    requires a_len { length a.old ≡ 64 }
    ensures { (length a.new ≡ 64) × Tabled (opening_at gain srf) nan from end a.new }
{
    if end - from >= FEW && from <= 16777152 {
        openings_whole(gain, srf, from, a);
    } else {
        frame_block::table(from, end, a, |i| opening(gain, srf, i));
    }
}
