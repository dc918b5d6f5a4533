// The knob sets and the envelope. Fields have the source's names and stand in the source's order,
// which is the order of a text score's knobs.
ghost use Rattle.std.specs.Prelude.{◌≡◌};
ghost use Rattle.dsl.specs.Sized.{all_sized};
ghost use Rattle.dsl.specs.Knobs.{knob_list, env_list};
ghost use Rattle.dsl.specs.Drawbars.{BARS};

use crate::kit::KitStyle;
use crate::sized::all_sized;
use crate::wave::SeqWave;

#[derive(Clone, Copy)]
pub struct FmKnobs {
    pub fm_ratio: f32,
    pub fm_index: f32,
    pub fm_strike: f32,
}

#[derive(Clone, Copy)]
pub struct PluckKnobs {
    pub pluck_decay: f32,
    pub pluck_body: f32,
    pub pluck_pick: f32,
    pub pluck_tone: f32,
}

#[derive(Clone, Copy)]
pub struct PianoKnobs {
    pub piano_hammer: f32,
    pub piano_strike: f32,
    pub piano_inharm: f32,
    pub piano_detune: f32,
    pub piano_decay: f32,
}

#[derive(Clone, Copy)]
pub struct BassKnobs {
    pub bass_cutoff: f32,
    pub bass_env: f32,
    pub bass_env_vel: f32,
    pub bass_decay: f32,
    pub bass_click: f32,
    pub bass_body: f32,
    pub bass_sub: f32,
    pub bass_sub_ratio: f32,
    pub bass_drive: f32,
    pub bass_body_decay: f32,
}

// The organ's five drawbars: each a ratio to half the pitch and a level.
#[derive(Clone, Copy)]
pub struct Drawbars {
    pub ratio1: f32,
    pub level1: f32,
    pub ratio2: f32,
    pub level2: f32,
    pub ratio3: f32,
    pub level3: f32,
    pub ratio4: f32,
    pub level4: f32,
    pub ratio5: f32,
    pub level5: f32,
}

impl Drawbars {
    // `BARS` of `organ_note`: what an organ has where no drawbars are set.
    pub fn bars() -> Drawbars
        ensures { result ≡ BARS }
    {
        Drawbars {
            ratio1: 1.0,
            level1: 0.45,
            ratio2: 2.0,
            level2: 1.0,
            ratio3: 4.0,
            level3: 0.45,
            ratio4: 6.0,
            level4: 0.3,
            ratio5: 8.0,
            level5: 0.22,
        }
    }
}

// Attack, decay and release in seconds, the sustained level, and the boost of the first moment.
#[derive(Clone, Copy)]
pub struct Adsr {
    pub a: f32,
    pub d: f32,
    pub s: f32,
    pub r: f32,
    pub punch: f32,
}

// A wave, its knobs, its drawbars and its kit's style. The knobs of the sets that the wave doesn't use are there too,
// drawbars whether it is the organ or not, and a style whether it is the kit or not.
#[derive(Clone, Copy)]
pub struct SeqVoice {
    pub wave: SeqWave,
    pub fm: FmKnobs,
    pub pluck: PluckKnobs,
    pub piano: PianoKnobs,
    pub bass: BassKnobs,
    pub bars: Drawbars,
    pub kit: KitStyle,
}

// Whether each knob of the four sets and each number of the drawbars is sized.
pub fn knobs_sized(voice: SeqVoice) -> bool
    ensures { result ≡ all_sized (knob_list voice) }
{
    let fm = voice.fm;
    let pluck = voice.pluck;
    let piano = voice.piano;
    let bass = voice.bass;
    let bars = voice.bars;
    let values = [
        fm.fm_ratio,
        fm.fm_index,
        fm.fm_strike,
        pluck.pluck_decay,
        pluck.pluck_body,
        pluck.pluck_pick,
        pluck.pluck_tone,
        piano.piano_hammer,
        piano.piano_strike,
        piano.piano_inharm,
        piano.piano_detune,
        piano.piano_decay,
        bass.bass_cutoff,
        bass.bass_env,
        bass.bass_env_vel,
        bass.bass_decay,
        bass.bass_click,
        bass.bass_body,
        bass.bass_sub,
        bass.bass_sub_ratio,
        bass.bass_drive,
        bass.bass_body_decay,
        bars.ratio1,
        bars.level1,
        bars.ratio2,
        bars.level2,
        bars.ratio3,
        bars.level3,
        bars.ratio4,
        bars.level4,
        bars.ratio5,
        bars.level5,
    ];
    all_sized(&values)
}

// Whether each number of an envelope is sized.
pub fn env_sized(env: Adsr) -> bool
    ensures { result ≡ all_sized (env_list env) }
{
    let values = [env.a, env.d, env.s, env.r, env.punch];
    all_sized(&values)
}
