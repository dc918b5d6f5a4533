// The plucked string of Karplus and Strong: noise in a ring as long as a period, which a loop filter
// damps each time round, with a pick's click and a guitar's body. At their defaults the tone, body and
// pick change nothing.
ghost use Rattle.std.specs.Prelude.{◌≡◌, ◌+◌, ◌%◌, ◌<◌, ◌≤◌, length};
ghost use Rattle.ieee.specs.Numbers.{f32};
ghost use Rattle.dsl.specs.Domain.{Rate, Frames};
ghost use Rattle.dsl.specs.Pitch.{pitch_at, reaches};
ghost use Rattle.counts.specs.Period.{period_of};
ghost use Rattle.rng.specs.SplitMix64.{state_after};
ghost use Rattle.voice_pluck.specs.Pluck.{picked, plucked, at_rest, ring_frames, ring_after, pluck_frames, pluck_left};

use crate::guitar::{Echo, Echoes, Timbre, guitar_timbre, ring_all};
use dsl::{PluckKnobs, Reading};
use osc::Out;
use rng::Rng;

// What the pick's highpass holds: its last input and output.
#[derive(Clone, Copy)]
pub struct Pick {
    pub hp_in: f32,
    pub hp_out: f32,
}

// What a frame hands to the next, beside the string.
#[derive(Clone, Copy)]
pub struct PluckState {
    pub echoes: Echoes,
    pub pick: Pick,
    pub lp: f32,
}

// A frame: its sample, what goes back into the string, and the state before the next frame.
#[derive(Clone, Copy)]
pub struct PluckOut {
    pub sample: f32,
    pub string: f32,
    pub state: PluckState,
}

// The pick's click, of the first 8 milliseconds; later the highpass rests.
fn click(amount: f32, t: f32, y: f32, s: Pick) -> Out<Pick>
    ensures { result ≡ picked amount t y s }
{
    if t < 0.008 {
        let hp = 0.9 * (s.hp_out + y - s.hp_in);
        let state = Pick {
            hp_in: y,
            hp_out: hp,
        };
        return Out {
            sample: amount * hp * (1.0 - t / 0.008),
            state,
        };
    }
    Out {
        sample: 0.0,
        state: s,
    }
}

// A frame, of the string's value y and the value after it.
fn pluck_at(
    k: PluckKnobs,
    g: Timbre,
    srf: f32,
    i: usize,
    y: f32,
    next: f32,
    s: PluckState,
) -> PluckOut
    requires { Frames i }
    ensures { result ≡ plucked k g srf i y next s }
{
    let pick = click(k.pluck_pick, osc::frame_time(i, srf), y, s.pick);
    let echoes = ring_all(g, y, s.echoes);
    let body_sum = 0.0 + echoes.air.y1 + echoes.top.y1 + echoes.back.y1;
    let avg = (0.5 + 0.5 * g.bright) * y + (0.5 - 0.5 * g.bright) * next;
    let lp = s.lp + g.damp * (avg - s.lp);
    let filt = (1.0 - g.damp) * avg + g.damp * lp;
    let hp = pick.state;
    let state = PluckState {
        echoes,
        pick: hp,
        lp,
    };
    PluckOut {
        sample: (1.0 - 0.3 * k.pluck_body) * y + k.pluck_body * 0.6 * body_sum + pick.sample,
        string: k.pluck_decay * filt,
        state,
    }
}

// The place after `spos` in a ring of n.
fn turn(spos: usize, n: usize) -> usize
    requires { spos < n }
    ensures { (result ≡ (spos + 1) % n) × (result < n) }
{
    if spos + 1 < n { spos + 1 } else { 0 }
}

// The state before the first frame.
fn at_rest() -> PluckState
    ensures { result ≡ at_rest }
{
    let air = Echo { y1: 0.0, y2: 0.0 };
    let top = Echo { y1: 0.0, y2: 0.0 };
    let back = Echo { y1: 0.0, y2: 0.0 };
    let echoes = Echoes { air, top, back };
    let pick = Pick {
        hp_in: 0.0,
        hp_out: 0.0,
    };
    PluckState {
        echoes,
        pick,
        lp: 0.0,
    }
}

// The frames of a string, all of which is the ring that the loop filter goes round.
fn ring_string(k: PluckKnobs, g: Timbre, srf: f32, string: &mut [f32], out: &mut [f32])
    requires string_nonzero { 0 < length string.old }
    requires frames { Frames (length out.old) }
    ensures out_after { out.new ≡ ring_frames k g srf string.old (length out.old) }
    ensures string_after { string.new ≡ ring_after k g srf string.old (length out.old) }
{
    let mut s = at_rest();
    let mut spos = 0usize;
    for i in 0..out.len() {
        let after = turn(spos, string.len());
        let r = pluck_at(k, g, srf, i, string[spos], string[after], s);
        string[spos] = r.string;
        out[i] = r.sample;
        spos = after;
        s = r.state;
    }
}

// The note of a string of `period` values: noise, a draw for each, that then sounds. The values of
// `string` past the period stay.
fn sound_string(
    knobs: PluckKnobs,
    srf: f32,
    period: usize,
    rng: Rng,
    string: &mut [f32],
    out: &mut [f32],
) -> Rng
    requires period_nonzero { 0 < period }
    requires period_in_bounds { period ≤ length string.old }
    requires frames { Frames (length out.old) }
    ensures out_after { out.new ≡ pluck_frames knobs srf period rng.0 (length out.old) }
    ensures string_after { string.new ≡ pluck_left knobs srf period rng.0 (length out.old) string.old }
    ensures result_value { result.0 ≡ state_after rng.0 period }
{
    let after = voice_noise::noise(rng, &mut string[..period]);
    let g = guitar_timbre(knobs.pluck_tone, srf);
    ring_string(knobs, g, srf, &mut string[..period], out);
    after
}

// The string has the period of the first pitch, and no other pitch is read. Of `string` at most the
// first 9,600 values are used. Hands back the generator after a draw for each value of the period.
pub fn pluck_note(
    knobs: PluckKnobs,
    pitch: Reading,
    lane: &[f32],
    rate: u32,
    rng: Rng,
    string: &mut [f32],
    out: &mut [f32],
) -> Rng
    requires rate { Rate rate }
    requires reaches { reaches pitch (length lane.now) (length out.old) }
    requires out_nonzero { 0 < length out.old }
    requires frames { Frames (length out.old) }
    requires in_bounds { 9600 ≤ length string.old }
    ensures out_after { out.new ≡ pluck_frames knobs (f32 rate) (period_of rate (pitch_at pitch lane.now 0)) rng.0 (length out.old) }
    ensures string_after { string.new ≡ pluck_left knobs (f32 rate) (period_of rate (pitch_at pitch lane.now 0)) rng.0 (length out.old) string.old }
    ensures result_value { result.0 ≡ state_after rng.0 (period_of rate (pitch_at pitch lane.now 0)) }
{
    let period = counts::string_period(rate, pitch.at(lane, 0));
    let srf = std::num::nearest_u32_to_f32(rate);
    sound_string(knobs, srf, period, rng, string, out)
}
