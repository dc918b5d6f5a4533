// The clap: noise in a band, in four bursts 9 milliseconds apart, and a tail. Its level needs only the
// frames' times.
ghost use Rattle.std.specs.Prelude.{◌≡◌, ◌+◌, ◌-◌, ◌≤◌, length};
ghost use Rattle.std.specs.Float.{nan};
ghost use Rattle.blocks.proofs.Block.{Tabled};
ghost use Rattle.osc.specs.Phase.{seconds};
ghost use Rattle.kit_acoustic.specs.Clap.{burst_of};
ghost use Rattle.kit_acoustic.specs.Block.{burst_argument, heard_of, clap_mix, acoustic_clap_level, acoustic_clap_by};

use crate::drums::{AcousticState, Coefficients};
use frame_block::{decays_before, table};
use kit_parts::at_times;
use osc::Out;

// A burst that starts at d.
fn burst(t: f32, d: f32) -> f32
    ensures { result ≡ burst_of t d }
{
    if t >= d {
        return dsp::exp(-(t - d) / 0.009);
    }
    0.0
}

// The argument of its exponential.
fn burst_argument(t: f32, d: f32) -> f32
    ensures { result ≡ burst_argument t d }
{
    -(t - d) / 0.009
}

// A burst by its exponential e, which is not heard before d.
fn heard(t: f32, d: f32, e: f32) -> f32
    ensures { result ≡ heard_of t d e }
{
    if t >= d { e } else { 0.0 }
}

// The exponentials of a whole block, and of them those that are heard.
fn bursts_whole(srf: f32, d: f32, from: usize, end: usize, a: &mut [f32; 64])
    requires from_le_end { (from ≤ end) × (end ≤ from + 64) × (end ≤ 16777216) }
    requires a_len { length a.old ≡ 64 }
    ensures { (length a.new ≡ 64) × Tabled (λ i. burst_of (seconds srf i) d) nan from end a.new }
{
    let mut x = [0.0f32; 64];
    let mut e = [0.0f32; 64];
    at_times(srf, from, end, &mut x, |_, t| burst_argument(t, d));
    frame_block::exps_before(&x, end - from, &mut e);
    at_times(srf, from, end, a, |i, t| heard(t, d, e[i - from]));
}

// A burst in the frames of a block. Before it starts there is nothing to work out.
fn bursts(srf: f32, d: f32, from: usize, end: usize, a: &mut [f32; 64])
    requires from_le_end { (from ≤ end) × (end ≤ from + 64) × (end ≤ 16777216) }
    requires a_len { length a.old ≡ 64 }
    ensures { (length a.new ≡ 64) × Tabled (λ i. burst_of (seconds srf i) d) nan from end a.new }
{
    if osc::frame_time(from, srf) >= d {
        bursts_whole(srf, d, from, end, a);
    } else {
        at_times(srf, from, end, a, |_, t| burst(t, d));
    }
}

fn clap_mix(b1: f32, b2: f32, b3: f32, b4: f32, tail: f32) -> f32
    ensures { result ≡ clap_mix b1 b2 b3 b4 tail }
{
    0.90 * float::min_f32(b1 + b2 + b3 + b4, 1.0) + 0.35 * tail
}

// In the frames from `from` on and before `end`.
pub fn clap_levels(srf: f32, from: usize, end: usize, a: &mut [f32; 64])
    requires from_le_end { (from ≤ end) × (end ≤ from + 64) × (end ≤ 16777216) }
    requires a_len { length a.old ≡ 64 }
    ensures { (length a.new ≡ 64) × Tabled (λ i. acoustic_clap_level (seconds srf i)) nan from end a.new }
{
    let mut b1 = [0.0f32; 64];
    let mut b2 = [0.0f32; 64];
    let mut b3 = [0.0f32; 64];
    let mut b4 = [0.0f32; 64];
    let mut tail = [0.0f32; 64];
    bursts(srf, 0.0, from, end, &mut b1);
    bursts(srf, 0.009, from, end, &mut b2);
    bursts(srf, 0.018, from, end, &mut b3);
    bursts(srf, 0.027, from, end, &mut b4);
    decays_before(srf, 0.10, from, end, &mut tail);
    table(0, 64, a, |i| clap_mix(b1[i], b2[i], b3[i], b4[i], tail[i]));
}

pub fn clap(level: f32, k: Coefficients, s: AcousticState) -> Out<AcousticState>
    ensures { result ≡ acoustic_clap_by level k s }
{
    let w = s.rng.bi();
    let lpa = s.lpa + k.a2500 * (w.value - s.lpa);
    let hpa = s.hpa + k.a900 * (lpa - s.hpa);
    let band = lpa - hpa;
    Out {
        sample: band * level,
        state: AcousticState {
            lpa,
            hpa,
            rng: w.rng,
            ..s
        },
    }
}
