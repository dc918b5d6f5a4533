// A note's envelope, stage by stage: `adsr_env` of dsp.rs, and `adsr` of render/mod.rs, which hands back no
// buffer but the frames of each stage. A stage is a run of frames, since their times rise.
#![tactic(auto)]

ghost use Rattle.std.specs.Prelude.{◌≡◌, ◌≤◌};
ghost use Rattle.std.specs.Float.Ieee.{lt};
ghost use Rattle.ieee.specs.Numbers.{f32};
ghost use Rattle.osc.specs.Phase.{seconds};
ghost use Rattle.dsl.specs.Domain.{Rate, Frames};
ghost use Rattle.envelope.specs.Envelope.{share_of, punched_of, adsr_env, release_start};
ghost use Rattle.envelope.specs.Stages.{attack_of, decay_of, release_of, stage_of, Parted, Staged};

use dsl::Adsr;

// In the order of the tests of `adsr_env`.
#[derive(Clone, Copy)]
pub enum Stage {
    Attack,
    Decay,
    Sustain,
    Release,
}

// When the release starts, in seconds, and the frames at which the attack, the decay and the sustain have ended.
#[derive(Clone, Copy)]
pub struct Stages {
    pub rel_start: f32,
    pub attack: usize,
    pub decay: usize,
    pub sustain: usize,
}

fn share(x: f32, stage: f32) -> f32
    ensures { result ≡ share_of x stage }
{
    if stage > 0.0 {
        return x / stage;
    }
    1.0
}

// Punch boosts the attack and the decay, most at the start.
fn punched(t: f32, punch: f32, punch_win: f32, v: f32) -> f32
    ensures { result ≡ punched_of t punch punch_win v }
{
    if punch > 0.0 && punch_win > 0.0 && t < punch_win {
        return v * (1.0 + punch * (1.0 - t / punch_win));
    }
    v
}

// The envelope at t seconds, within the attack.
pub fn attack(t: f32, env: Adsr) -> f32
    ensures { result ≡ attack_of t env }
{
    punched(t, env.punch, env.a + env.d, share(t, env.a))
}

// The envelope at t seconds, within the decay.
pub fn decay(t: f32, env: Adsr) -> f32
    ensures { result ≡ decay_of t env }
{
    let v = 1.0 - (1.0 - env.s) * share(t - env.a, env.d);
    punched(t, env.punch, env.a + env.d, v)
}

// The envelope at t seconds, within the release.
pub fn release(t: f32, env: Adsr, rel_start: f32) -> f32
    ensures { result ≡ release_of t env rel_start }
{
    if env.r > 0.0 {
        return env.s * (1.0 - float::clamp_f32((t - rel_start) / env.r, 0.0, 1.0));
    }
    0.0
}

// `adsr_env` of dsp.rs at t seconds. Its tests on t are the caller's, who knows them of all frames of a
// stage: `stage` is what they say.
pub fn adsr_env(stage: Stage, t: f32, env: Adsr, rel_start: f32) -> f32
    requires { stage ≡ stage_of t env rel_start }
    ensures { result ≡ adsr_env t env rel_start }
{
    match stage {
        Stage::Attack => attack(t, env),
        Stage::Decay => decay(t, env),
        Stage::Sustain => env.s,
        Stage::Release => release(t, env, rel_start),
    }
}

// Where the release of a note of `len` frames starts, in seconds: the envelope spans the whole length,
// however much of it sounds.
pub fn release_start(env: Adsr, len: usize, rate: u32) -> f32
    requires { Frames len }
    ensures { result ≡ release_start env len rate }
{
    let srf = std::num::nearest_u32_to_f32(rate);
    float::max_f32(osc::frame_time(len, srf) - env.r, 0.0)
}

// The end of a stage that lasts until `end` seconds, among the frames from `from` on and below n: the first
// whose time is not below `end`, by halves: a search of frame numbers, which stand in no list, so that it is a `while`.
pub fn stage_end(end: f32, from: usize, n: usize, rate: u32) -> usize
    requires rate { Rate rate }
    requires frames { Frames n }
    requires from_le_n { from ≤ n }
    ensures { Parted (λ i. lt (seconds (f32 rate) i) end) from n result }
{
    let srf = std::num::nearest_u32_to_f32(rate);
    let mut low = from;
    let mut high = n;
    while low < high {
        let middle = low + (high - low) / 2;
        if osc::frame_time(middle, srf) < end {
            low = middle + 1;
        } else {
            high = middle;
        }
    }
    low
}

// `adsr` of render/mod.rs: the stages of the first n frames of a note of `len` frames.
pub fn adsr(env: Adsr, len: usize, n: usize, rate: u32) -> Stages
    requires rate { Rate rate }
    requires frames { Frames len }
    requires frames_2 { Frames n }
    ensures { Staged env len rate n result }
{
    let rel_start = release_start(env, len, rate);
    let attack = stage_end(env.a, 0, n, rate);
    let decay = stage_end(env.a + env.d, attack, n, rate);
    let sustain = stage_end(rel_start, decay, n, rate);
    Stages {
        rel_start,
        attack,
        decay,
        sustain,
    }
}
