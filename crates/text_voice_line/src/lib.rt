// The line V of a text score: a wave with its knobs, drawbars or style, and the duty.
#![tactic(auto)]

ghost use Rattle.std.specs.Prelude.{◌≡◌, drop, Some};
ghost use Rattle.dsl.specs.Sets.{fm_by, pluck_by, piano_by, bass_by};
ghost use Rattle.text_lines.specs.Line.{float_at};
ghost use Rattle.text_voice_line.specs.Voice.{ends, bar_count, knob_count, bars_of, style_field, voice_with, voice_of, sound_of, line_v};
ghost use Rattle.text_digits.specs.Answers.{value_in};

use dsl::{BassKnobs, Drawbars, FmKnobs, KitStyle, PianoKnobs, PluckKnobs, SeqVoice, SeqWave};
use text_digits::expect;
use text_lines::{FLOAT, WORD, ending, field, float_at};

// The places of the waves that have knobs, drawbars or a style. They stay numbers, as on the line V,
// since the definitions `knob_count`, `style_field`, `voice_of` and `sound_of` take a place.
const FM: u32 = 5;

const PLUCK: u32 = 6;

const PIANO: u32 = 7;

const ORGAN: u32 = 9;

const BASS: u32 = 15;

const KIT: u32 = 16;

// Whether the line ends at a place.
fn ends(s: &[u8], at: usize) -> bool
    ensures { result ≡ ends (drop at s.now) }
{
    expect(s, at, b'\n').is_some()
}

// Drawbars are ten numbers or, where the line ends after the duty, none.
fn bar_count(ended: bool) -> usize
    ensures { result ≡ bar_count ended }
{
    if ended {
        return 0;
    }
    10
}

// How many numbers follow the duty of the wave at a place.
fn knob_count(place: u32, ended: bool) -> usize
    ensures { result ≡ knob_count place ended }
{
    if place == FM {
        return 3;
    }
    if place == PLUCK {
        return 4;
    }
    if place == PIANO {
        return 5;
    }
    if place == BASS {
        return 10;
    }
    if place == ORGAN {
        return bar_count(ended);
    }
    0
}

// The knobs of some bits, 0 where there are none.
fn fm_of(bits: &[u32]) -> FmKnobs
    ensures { result ≡ fm_by (float_at bits.now) }
{
    FmKnobs {
        fm_ratio: float_at(bits, 0),
        fm_index: float_at(bits, 1),
        fm_strike: float_at(bits, 2),
    }
}

fn pluck_of(bits: &[u32]) -> PluckKnobs
    ensures { result ≡ pluck_by (float_at bits.now) }
{
    PluckKnobs {
        pluck_decay: float_at(bits, 0),
        pluck_body: float_at(bits, 1),
        pluck_pick: float_at(bits, 2),
        pluck_tone: float_at(bits, 3),
    }
}

fn piano_of(bits: &[u32]) -> PianoKnobs
    ensures { result ≡ piano_by (float_at bits.now) }
{
    PianoKnobs {
        piano_hammer: float_at(bits, 0),
        piano_strike: float_at(bits, 1),
        piano_inharm: float_at(bits, 2),
        piano_detune: float_at(bits, 3),
        piano_decay: float_at(bits, 4),
    }
}

fn bass_of(bits: &[u32]) -> BassKnobs
    ensures { result ≡ bass_by (float_at bits.now) }
{
    BassKnobs {
        bass_cutoff: float_at(bits, 0),
        bass_env: float_at(bits, 1),
        bass_env_vel: float_at(bits, 2),
        bass_decay: float_at(bits, 3),
        bass_click: float_at(bits, 4),
        bass_body: float_at(bits, 5),
        bass_sub: float_at(bits, 6),
        bass_sub_ratio: float_at(bits, 7),
        bass_drive: float_at(bits, 8),
        bass_body_decay: float_at(bits, 9),
    }
}

// The drawbars of some bits, `BARS` where there are none.
fn bars_of(bits: &[u32]) -> Drawbars
    ensures { result ≡ bars_of bits.now }
{
    if bits.len() == 0 {
        return Drawbars::bars();
    }
    Drawbars {
        ratio1: float_at(bits, 0),
        level1: float_at(bits, 1),
        ratio2: float_at(bits, 2),
        level2: float_at(bits, 3),
        ratio3: float_at(bits, 4),
        level3: float_at(bits, 5),
        ratio4: float_at(bits, 6),
        level4: float_at(bits, 7),
        ratio5: float_at(bits, 8),
        level5: float_at(bits, 9),
    }
}

// The kit's style, and the place after it. Other waves have none on their line, and their voices hold the first.
fn style_field(s: &[u8], at: usize, place: u32) -> Option<(KitStyle, usize)>
    ensures { value_in s.now result ≡ style_field place (drop at s.now) }
{
    if place != KIT {
        return Some((KitStyle::Classic, at));
    }
    let (number, next) = field(s, at, WORD)?;
    let style = KitStyle::at(number as u32)?;
    Some((style, next))
}

// The voice of a style, of the bits of each set and of the drawbars.
fn voice_with(
    wave: SeqWave,
    style: KitStyle,
    fm: &[u32],
    pluck: &[u32],
    piano: &[u32],
    bass: &[u32],
    bars: &[u32],
) -> SeqVoice
    ensures { result ≡ voice_with wave style fm.now pluck.now piano.now bass.now bars.now }
{
    SeqVoice {
        wave,
        fm: fm_of(fm),
        pluck: pluck_of(pluck),
        piano: piano_of(piano),
        bass: bass_of(bass),
        bars: bars_of(bars),
        kit: style,
    }
}

// The voice of a wave, of its place, its style and the bits of its own knobs or drawbars.
fn voice_of(place: u32, wave: SeqWave, style: KitStyle, bits: &[u32]) -> SeqVoice
    ensures { result ≡ voice_of place wave style bits.now }
{
    let none = &bits[..0];
    if place == FM {
        return voice_with(wave, style, bits, none, none, none, none);
    }
    if place == PLUCK {
        return voice_with(wave, style, none, bits, none, none, none);
    }
    if place == PIANO {
        return voice_with(wave, style, none, none, bits, none, none);
    }
    if place == BASS {
        return voice_with(wave, style, none, none, none, bits, none);
    }
    if place == ORGAN {
        return voice_with(wave, style, none, none, none, none, bits);
    }
    voice_with(wave, style, none, none, none, none, none)
}

#[derive(Clone, Copy)]
pub struct Sound {
    pub voice: SeqVoice,
    pub duty: f32,
}

// The duty, the style and the knobs or drawbars of a wave, to the end of its line.
fn sound_of(s: &[u8], at: usize, place: u32, wave: SeqWave) -> Option<(Sound, usize)>
    ensures { value_in s.now result ≡ sound_of place (Some wave) (drop at s.now) }
{
    let (duty, second) = field(s, at, FLOAT)?;
    let (style, first) = style_field(s, second, place)?;
    let kinds = [FLOAT; 10];
    let mut bits = [0u32; 10];
    let k = knob_count(place, ends(s, first));
    let next = ending(s, first, &kinds[..k], &mut bits)?;
    let sound = Sound {
        voice: voice_of(place, wave, style, &bits[..k]),
        duty: rounding::f32_from_bits(duty as u32),
    };
    Some((sound, next))
}

pub fn line_v(s: &[u8], at: usize) -> Option<(Sound, usize)>
    ensures { value_in s.now result ≡ line_v (drop at s.now) }
{
    let first = expect(s, at, b'V')?;
    let (place, next) = field(s, first, WORD)?;
    let wave = SeqWave::at(place as u32)?;
    sound_of(s, next, place as u32, wave)
}
