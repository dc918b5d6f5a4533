// The square and the triangle: two jumps a period, each smoothed by its residual, which keeps it from
// aliasing. The triangle is the square summed up, with a leak that keeps the sum about zero. In blocks of 64 frames: the
// steps of the phase and the duties first, and then the frames.
ghost use Rattle.std.specs.Prelude.{◌≡◌, ◌+◌, ◌-◌, ◌≤◌, length, get_or};
ghost use Rattle.std.specs.Float.{binary32, nan};
ghost use Rattle.blocks.proofs.Block.{Tabled};
ghost use Rattle.blocks.proofs.Carried.{Carried};
ghost use Rattle.ieee.specs.Numbers.{c0·01};
ghost use Rattle.ieee.specs.Order.{clamp_of};
ghost use Rattle.ieee.specs.Whole.{fract_of};
ghost use Rattle.dsl.specs.Pitch.{pitch_at, reaches};
ghost use Rattle.voice_waves.specs.Pulse.{c0·99, pulse_level, pulse_of, square_frames, triangle_frames};
ghost use Rattle.voice_waves.specs.Block.{square_by, triangle_by};

use crate::steps::steps;
use dsl::Reading;
use osc::Out;

// 1 before the second jump, -1 after it.
fn level(phase: f32, duty: f32) -> f32
    ensures { result ≡ pulse_level phase duty }
{
    if phase < duty { 1.0 } else { -1.0 }
}

// The level with both jumps smoothed; `second` is the phase counted from the second jump. Most frames
// are at no jump: both residuals are 0.
fn pulse(phase: f32, duty: f32, second: f32, dt: f32) -> f32
    ensures { result ≡ pulse_of phase duty second dt }
{
    let v = level(phase, duty);
    let high = 1.0 - dt;
    if phase < dt || phase > high || second < dt || second > high {
        return v + osc::poly_blep(phase, dt) - osc::poly_blep(second, dt);
    }
    v
}

// x less its whole part. Above 0 that part is the floor, which `osc::wrap` takes off.
fn fract(x: f32) -> f32
    ensures { result ≡ fract_of binary32 x }
{
    if x > 0.0 {
        return osc::wrap(x);
    }
    float::fract_f32(x)
}

// The widths of a block's frames; d is lent for their duties.
fn widths(
    duty: Reading,
    duties: &[f32],
    from: usize,
    end: usize,
    d: &mut [f32; 64],
    w: &mut [f32; 64],
)
    requires from_le_end { (from ≤ end) × (end ≤ from + 64) × (length d.old ≡ 64) × (length w.old ≡ 64) }
    requires reaches { reaches duty (length duties.now) end }
    ensures d_len { (length d.new ≡ 64) × (length w.new ≡ 64) }
    ensures tabled { Tabled (λ i. clamp_of (pitch_at duty duties.now i) c0·01 c0·99) nan from end w.new }
{
    duty.block(duties, from, end, d);
    frame_block::table(0, 64, w, |k| float::clamp_f32(d[k], 0.01, 0.99));
}

fn square_by(dt: f32, width: f32, phase: f32) -> Out<f32>
    ensures { result ≡ square_by (record { step = dt; width = width }) phase }
{
    Out {
        sample: pulse(phase, width, fract(phase - width + 1.0), dt),
        state: osc::wrap(phase + dt),
    }
}

// The duty is read at every frame.
pub fn square(
    pitch: Reading,
    lane: &[f32],
    duty: Reading,
    duties: &[f32],
    srf: f32,
    out: &mut [f32],
)
    requires reaches { reaches pitch (length lane.now) (length out.old) }
    requires reaches_2 { reaches duty (length duties.now) (length out.old) }
    ensures { out.new ≡ square_frames (pitch_at pitch lane.now) (pitch_at duty duties.now) srf (length out.old) }
{
    let mut s = 0.0f32;
    let mut f = [0.0f32; 64];
    let mut dt = [0.0f32; 64];
    let mut w = [0.0f32; 64];
    for i in (0..out.len()).step_by(64) {
        let end = frame_block::block_end(i, out.len());
        steps(pitch, lane, srf, i, end, &mut f, &mut dt);
        widths(duty, duties, i, end, &mut f, &mut w);
        s = frame_block::frames(i, end, s, out, |k, s| square_by(dt[k - i], w[k - i], s));
    }
}

#[derive(Clone, Copy)]
pub struct TriangleState {
    pub phase: f32,
    pub tri: f32,
}

fn triangle_by(dt: f32, s: TriangleState) -> Out<TriangleState>
    ensures { result ≡ triangle_by dt s }
{
    let sq = pulse(s.phase, 0.5, fract(s.phase + 0.5), dt);
    let tri = s.tri * 0.9995 + 4.0 * dt * sq;
    Out {
        sample: tri,
        state: TriangleState {
            phase: osc::wrap(s.phase + dt),
            tri,
        },
    }
}

// Not by `frame_block::frames`: the triangle then took a fifth more time.
fn triangle_block(
    dt: &[f32; 64],
    from: usize,
    end: usize,
    start: TriangleState,
    out: &mut [f32],
) -> TriangleState
    requires { (from ≤ end) × (end ≤ from + 64) × (end ≤ length out.old) }
    ensures { Carried (λ i. triangle_by (get_or dt.now (i - from) nan)) (λ o. o.sample) (λ o. o.state)
        from end out.old start out.new result }
{
    let mut s = start;
    for i in from..end {
        let r = triangle_by(dt[i - from], s);
        out[i] = r.sample;
        s = r.state;
    }
    s
}

// A square wave summed up, with a leak that keeps the sum about zero.
pub fn triangle(pitch: Reading, lane: &[f32], srf: f32, out: &mut [f32])
    requires { reaches pitch (length lane.now) (length out.old) }
    ensures { out.new ≡ triangle_frames (pitch_at pitch lane.now) srf (length out.old) }
{
    let mut s = TriangleState {
        phase: 0.0,
        tri: 0.0,
    };
    let mut f = [0.0f32; 64];
    let mut dt = [0.0f32; 64];
    for i in (0..out.len()).step_by(64) {
        let end = frame_block::block_end(i, out.len());
        steps(pitch, lane, srf, i, end, &mut f, &mut dt);
        s = triangle_block(&dt, i, end, s, out);
    }
}
