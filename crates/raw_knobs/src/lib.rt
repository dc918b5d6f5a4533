// The voice of a wave's place, a style's, of 22 knobs and of 10 numbers of drawbars, and the envelope of 5
// values: what the calls from C and the outside vectors have in place of a voice and an envelope.
#![tactic(auto)]

ghost use Rattle.std.specs.Prelude.{◌≡◌, length};
ghost use Rattle.dsl.specs.Sets.{fm_by, pluck_by, piano_by, bass_by, drawbars_by};
ghost use Rattle.raw_knobs.specs.Knobs.{knob_from, voice_at, env_at};

use dsl::{
    Adsr, BassKnobs, Drawbars, FmKnobs, KitStyle, PianoKnobs, PluckKnobs, SeqVoice, SeqWave,
};

fn fm_knobs(k: &[f32]) -> FmKnobs
    requires { length k.now ≡ 22 }
    ensures { result ≡ fm_by (knob_from 0 k.now) }
{
    FmKnobs {
        fm_ratio: k[0],
        fm_index: k[1],
        fm_strike: k[2],
    }
}

fn pluck_knobs(k: &[f32]) -> PluckKnobs
    requires { length k.now ≡ 22 }
    ensures { result ≡ pluck_by (knob_from 3 k.now) }
{
    PluckKnobs {
        pluck_decay: k[3],
        pluck_body: k[4],
        pluck_pick: k[5],
        pluck_tone: k[6],
    }
}

fn piano_knobs(k: &[f32]) -> PianoKnobs
    requires { length k.now ≡ 22 }
    ensures { result ≡ piano_by (knob_from 7 k.now) }
{
    PianoKnobs {
        piano_hammer: k[7],
        piano_strike: k[8],
        piano_inharm: k[9],
        piano_detune: k[10],
        piano_decay: k[11],
    }
}

fn bass_knobs(k: &[f32]) -> BassKnobs
    requires { length k.now ≡ 22 }
    ensures { result ≡ bass_by (knob_from 12 k.now) }
{
    BassKnobs {
        bass_cutoff: k[12],
        bass_env: k[13],
        bass_env_vel: k[14],
        bass_decay: k[15],
        bass_click: k[16],
        bass_body: k[17],
        bass_sub: k[18],
        bass_sub_ratio: k[19],
        bass_drive: k[20],
        bass_body_decay: k[21],
    }
}

fn drawbars(b: &[f32]) -> Drawbars
    requires { length b.now ≡ 10 }
    ensures { result ≡ drawbars_by (knob_from 0 b.now) }
{
    Drawbars {
        ratio1: b[0],
        level1: b[1],
        ratio2: b[2],
        level2: b[3],
        ratio3: b[4],
        level3: b[5],
        ratio4: b[6],
        level4: b[7],
        ratio5: b[8],
        level5: b[9],
    }
}

// None where there is no such wave or style, or there are not 22 knobs and 10 numbers of drawbars.
#[tactic(auto, unfolding(crate::specs::Knobs::voice_at))]
pub fn voice_at(wave: u32, style: u32, knobs: &[f32], bars: &[f32]) -> Option<SeqVoice>
    ensures { result ≡ voice_at wave style knobs.now bars.now }
{
    if knobs.len() != 22 {
        return None;
    }
    if bars.len() != 10 {
        return None;
    }
    Some(SeqVoice {
        wave: SeqWave::at(wave)?,
        fm: fm_knobs(knobs),
        pluck: pluck_knobs(knobs),
        piano: piano_knobs(knobs),
        bass: bass_knobs(knobs),
        bars: drawbars(bars),
        kit: KitStyle::at(style)?,
    })
}

// None where there are not 5 values.
#[tactic(auto, unfolding(crate::specs::Knobs::env_at))]
pub fn env_at(env: &[f32]) -> Option<Adsr>
    ensures { result ≡ env_at env.now }
{
    let [a, d, s, r, punch] = *env else {
        return None;
    };
    Some(Adsr { a, d, s, r, punch })
}
