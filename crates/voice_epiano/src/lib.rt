// The electric piano, as a Rhodes: a soft body, its sine bent at its own pitch, under a metal tine, bent at 14 times
// the pitch, that pings on the attack. A louder note opens the tine. It goes by blocks of up to 64 frames: the
// exponentials and the phases first, then the inner sines of the whole block, then the outer ones, then the samples.
#![tactic(auto)]

ghost use Rattle.std.specs.Prelude.{◌≡◌, ◌+◌, ◌≤◌, ◌<◌, length};
ghost use Rattle.std.specs.Float.{nan};
ghost use Rattle.blocks.specs.Stored.{stored};
ghost use Rattle.blocks.proofs.Block.{Tabled};
ghost use Rattle.blocks.proofs.Rows.{Rows};
ghost use Rattle.blocks.proofs.Carried.{Carried};
ghost use Rattle.dsl.specs.Domain.{Frames};
ghost use Rattle.dsl.specs.Pitch.{pitch_at, reaches};
ghost use Rattle.frame_block.specs.Decay.{decay_at};
ghost use Rattle.ieee.specs.Numbers.{c0·5};
ghost use Rattle.voice_epiano.specs.Epiano.{c0·035, epiano_decay, epiano_at, epiano_sound, epiano_frames};
ghost use Rattle.voice_epiano.specs.Block.{inner_turns, carrier_turn_of, body_turn, tine_turn, epiano_mix, body_turn_at, tine_turn_at, outer_turns_at, epiano_mix_at, epiano_next, epiano_reached};

use dsl::Reading;

// The phases of the carrier, of the body's modulator and of the tine's.
#[derive(Clone, Copy)]
pub struct EpianoState {
    pub cph: f32,
    pub mph: f32,
    pub tph: f32,
}

// The carrier's turn c, bent by the body's inner sine m.
pub fn body_turn(gain: f32, c: f32, soft: f32, m: f32) -> f32
    ensures { result ≡ body_turn gain c soft m }
{
    let body_idx = (0.5 + 1.0 * gain) * soft;
    c + body_idx * m
}

// The carrier's turn c, bent by the tine's inner sine m. It stays beside `body_turn`: one function of both would take the
// two numbers, and a name for each would still have to say them.
pub fn tine_turn(gain: f32, c: f32, ping: f32, m: f32) -> f32
    ensures { result ≡ tine_turn gain c ping m }
{
    let tine_idx = (0.8 + 1.4 * gain) * ping;
    c + tine_idx * m
}

pub fn epiano_mix(body: f32, tine: f32, fade: f32) -> f32
    ensures { result ≡ epiano_mix body tine fade }
{
    (0.75 * body + 0.25 * tine) * fade
}

// The carrier's turn in frame k of a block, bent by the body's inner sine.
fn body_turn_at(gain: f32, c: &[f32; 64], soft: &[f32; 64], s: &[f32; 384], k: usize) -> f32
    requires { k < 64 }
    ensures { result ≡ body_turn_at gain c.now soft.now s.now k }
{
    body_turn(gain, c[k], soft[k], s[k * 2])
}

// The carrier's turn in frame k of a block, bent by the tine's inner sine.
fn tine_turn_at(gain: f32, c: &[f32; 64], ping: &[f32; 64], s: &[f32; 384], k: usize) -> f32
    requires { k < 64 }
    ensures { result ≡ tine_turn_at gain c.now ping.now s.now k }
{
    tine_turn(gain, c[k], ping[k], s[k * 2 + 1])
}

// The sample of frame k of a block by its outer sines.
fn epiano_mix_at(s: &[f32; 384], fade: &[f32; 64], k: usize) -> f32
    requires { k < 64 }
    ensures { result ≡ epiano_mix_at s.now fade.now k }
{
    epiano_mix(s[k * 2], s[k * 2 + 1], fade[k])
}

// The phases before the next frame.
pub fn epiano_next(s: EpianoState, dt: f32) -> EpianoState
    ensures { result ≡ epiano_next s dt }
{
    EpianoState {
        cph: osc::wrap(s.cph + dt),
        mph: osc::wrap(s.mph + dt),
        tph: osc::wrap(s.tph + dt * 14.0),
    }
}

// The turns of the modulators and of the carrier in n frames; hands back the state after them.
fn phases(
    pitch: Reading,
    lane: &[f32],
    srf: f32,
    from: usize,
    n: usize,
    start: EpianoState,
    x: &mut [f32; 384],
    c: &mut [f32; 64],
) -> EpianoState
    requires n_bound { (n ≤ 64) × (length x.old ≡ 384) × (length c.old ≡ 64) }
    requires reaches { reaches pitch (length lane.now) (from + n) }
    ensures x_len { (length x.new ≡ 384) × (length c.new ≡ 64) }
    ensures rows { Rows 2 (λ k. inner_turns (epiano_reached (pitch_at pitch lane.now) srf from start k)) nan n x.new }
    ensures tabled { Tabled (λ k. carrier_turn_of (epiano_reached (pitch_at pitch lane.now) srf from start k)) nan 0 n c.new }
    ensures value { result ≡ epiano_reached (pitch_at pitch lane.now) srf from start n }
{
    let mut s = start;
    for k in 0..n {
        frame_block::store(x, k * 2, [dsp::TAU * s.mph, dsp::TAU * s.tph]);
        c[k] = dsp::TAU * s.cph;
        s = epiano_next(s, osc::phase_step(pitch.at(lane, from + k), srf));
    }
    s
}

// The arguments of the outer sines of n frames, by the carrier's turns c, the exponentials and the inner sines s.
fn bend(
    gain: f32,
    c: &[f32; 64],
    soft: &[f32; 64],
    ping: &[f32; 64],
    s: &[f32; 384],
    n: usize,
    x: &mut [f32; 384],
)
    requires { (n ≤ 64) × (length x.old ≡ 384) }
    ensures { (length x.new ≡ 384) × Rows 2 (outer_turns_at gain c.now soft.now ping.now s.now) nan n x.new }
{
    for k in 0..n {
        let body = body_turn_at(gain, c, soft, s, k);
        let tine = tine_turn_at(gain, c, ping, s, k);
        frame_block::store(x, k * 2, [body, tine]);
    }
}

// The samples of n frames.
fn mix(s: &[f32; 384], fade: &[f32; 64], from: usize, n: usize, out: &mut [f32])
    requires { (n ≤ 64) × (from + n ≤ length out.old) }
    ensures { out.new ≡ stored (epiano_mix_at s.now fade.now) from n out.old }
{
    for k in 0..n {
        out[from + k] = epiano_mix_at(s, fade, k);
    }
}

// The exponentials of the frames from `from` on and before `end`.
fn levels(
    srf: f32,
    decay: f32,
    from: usize,
    end: usize,
    soft: &mut [f32; 64],
    ping: &mut [f32; 64],
    fade: &mut [f32; 64],
)
    requires from_le_end { (from ≤ end) × (end ≤ from + 64) × (end ≤ 16777216) }
    requires soft_len { (length soft.old ≡ 64) × (length ping.old ≡ 64) × (length fade.old ≡ 64) }
    ensures soft_len_2 { (length soft.new ≡ 64) × (length ping.new ≡ 64) × (length fade.new ≡ 64) }
    ensures tabled { Tabled (decay_at srf c0·5) nan from end soft.new }
    ensures tabled_2 { Tabled (decay_at srf c0·035) nan from end ping.new }
    ensures tabled_3 { Tabled (decay_at srf decay) nan from end fade.new }
{
    frame_block::decays_before(srf, 0.5, from, end, soft);
    frame_block::decays_before(srf, 0.035, from, end, ping);
    frame_block::decays_before(srf, decay, from, end, fade);
}

// The frames from `from` on and before `end`, from the state before them; hands back the state after them. The
// arrays are lent for what lies between.
fn epiano_block(
    pitch: Reading,
    lane: &[f32],
    gain: f32,
    srf: f32,
    decay: f32,
    from: usize,
    end: usize,
    start: EpianoState,
    x: &mut [f32; 384],
    near: &mut [f64; 384],
    q: &mut [f64; 384],
    wide: &mut [f64; 384],
    s: &mut [f32; 384],
    c: &mut [f32; 64],
    soft: &mut [f32; 64],
    ping: &mut [f32; 64],
    fade: &mut [f32; 64],
    out: &mut [f32],
) -> EpianoState
    requires from_le_end { (from ≤ end) × (end ≤ from + 64) × (end ≤ length out.old) }
    requires reaches { reaches pitch (length lane.now) end }
    requires x_len { (length x.old ≡ 384) × (length near.old ≡ 384) × (length q.old ≡ 384) × (length wide.old ≡ 384) × (length s.old ≡ 384) }
    requires c_len { (length c.old ≡ 64) × (length soft.old ≡ 64) × (length ping.old ≡ 64) × (length fade.old ≡ 64) }
    ensures x_len_2 { (length x.new ≡ 384) × (length near.new ≡ 384) × (length q.new ≡ 384) × (length wide.new ≡ 384) × (length s.new ≡ 384) }
    ensures c_len_2 { (length c.new ≡ 64) × (length soft.new ≡ 64) × (length ping.new ≡ 64) × (length fade.new ≡ 64) }
    ensures carried { Carried (λ i. epiano_at (pitch_at pitch lane.now i) gain srf decay i) (λ o. o.sample) (λ o. o.state)
        from end out.old start out.new result }
{
    let n = end - from;
    levels(srf, decay, from, end, soft, ping, fade);
    let next = phases(pitch, lane, srf, from, n, start, x, c);
    sin_block::sinf_block(x, n * 2, near, q, wide, s);
    bend(gain, c, soft, ping, s, n, x);
    sin_block::sinf_block(x, n * 2, near, q, wide, s);
    mix(s, fade, from, n, out);
    next
}

// The time constant of a note by its first pitch: low notes ring longer.
fn epiano_decay(first: f32) -> f32
    ensures { result ≡ epiano_decay first }
{
    float::clamp_f32(5.0 / (1.0 + float::max_f32(first, 20.0) / 250.0), 0.3, 4.0)
}

// The note by the time constant of its fading.
fn sound_epiano(pitch: Reading, lane: &[f32], gain: f32, srf: f32, decay: f32, out: &mut [f32])
    requires reaches { reaches pitch (length lane.now) (length out.old) }
    requires frames { Frames (length out.old) }
    ensures { out.new ≡ epiano_sound (pitch_at pitch lane.now) gain srf decay (length out.old) }
{
    let mut x = [0.0f32; 384];
    let mut near = [0.0f64; 384];
    let mut q = [0.0f64; 384];
    let mut wide = [0.0f64; 384];
    let mut s = [0.0f32; 384];
    let mut c = [0.0f32; 64];
    let mut soft = [0.0f32; 64];
    let mut ping = [0.0f32; 64];
    let mut fade = [0.0f32; 64];
    let mut state = EpianoState {
        cph: 0.0,
        mph: 0.0,
        tph: 0.0,
    };
    for i in (0..out.len()).step_by(64) {
        let end = frame_block::block_end(i, out.len());
        state = epiano_block(
            pitch, lane, gain, srf, decay, i, end, state, &mut x, &mut near, &mut q, &mut wide,
            &mut s, &mut c, &mut soft, &mut ping, &mut fade, out,
        );
    }
}

// With no frame there is no first pitch to read.
pub fn epiano_note(pitch: Reading, lane: &[f32], gain: f32, srf: f32, out: &mut [f32])
    requires reaches { reaches pitch (length lane.now) (length out.old) }
    requires frames { Frames (length out.old) }
    ensures { out.new ≡ epiano_frames (pitch_at pitch lane.now) gain srf (length out.old) }
{
    if out.len() == 0 {
        return;
    }
    let decay = epiano_decay(pitch.at(lane, 0));
    sound_epiano(pitch, lane, gain, srf, decay, out);
}
