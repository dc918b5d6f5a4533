// A note of a score.
ghost use Rattle.std.specs.Prelude.{◌≡◌};
ghost use Rattle.quarter_tone.specs.Lookup.{tone_of};
ghost use Rattle.dsl.specs.Note.{note_of, tuned_of};

use crate::pitch::Pitch;

#[derive(Clone, Copy)]
pub struct SeqNote {
    pub step: u32,
    pub len: u32,
    pub pitch: Pitch,
    pub gain: f32,
}

// A note by a number that has no quarter tone: all of it but the pitch.
#[derive(Clone, Copy)]
pub struct Untuned {
    pub step: u32,
    pub len: u32,
    pub gain: f32,
}

// What five words say: a note, one by a number that has no quarter tone, or a kind that there is not.
#[derive(Clone, Copy)]
pub enum Decoded {
    Note(SeqNote),
    NoTone(Untuned),
    NoKind,
}

// The note of quarter tone q. Its pitch is the number that stands in the table.
fn tuned(step: u32, len: u32, q: u32, gain: u32) -> Decoded
    ensures { result ≡ tuned_of step len (tone_of q) gain }
{
    let gain = rounding::f32_from_bits(gain);
    match quarter_tone::quarter_tone(q) {
        Some(hertz) => Decoded::Note(SeqNote {
            step,
            len,
            pitch: Pitch::Const(hertz),
            gain,
        }),
        None => Decoded::NoTone(Untuned { step, len, gain }),
    }
}

impl SeqNote {
    // The note of five words. `pitch` holds a number's pattern, a curve's offset or a quarter tone; a
    // NaN's pattern is a NaN, and whether numbers are sized is for the caller to test.
    pub fn decode(step: u32, len: u32, kind: u32, pitch: u32, gain: u32) -> Decoded
        ensures { result ≡ note_of step len kind pitch gain }
    {
        if kind == 0 {
            let number = Pitch::Const(rounding::f32_from_bits(pitch));
            return Decoded::Note(SeqNote {
                step,
                len,
                pitch: number,
                gain: rounding::f32_from_bits(gain),
            });
        }
        if kind == 1 {
            let curve = Pitch::Curve(pitch as usize);
            return Decoded::Note(SeqNote {
                step,
                len,
                pitch: curve,
                gain: rounding::f32_from_bits(gain),
            });
        }
        if kind == 2 {
            return tuned(step, len, pitch, gain);
        }
        Decoded::NoKind
    }
}
