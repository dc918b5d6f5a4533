// dsl/node.rs and dsl/mod.rs: what a score is written in. Everything here is taken by value.
#![tactic(auto)]

mod kit; // kit.rt: the drum kit's styles
mod knobs; // knobs.rt: the knob sets, the drawbars and the envelope
mod note; // note.rt: a note, and its decoding from five words
mod pitch; // pitch.rt: a number in hertz or a curve, and its reading
mod sized; // sized.rt: numbers of the domain
mod wave; // wave.rt: the waves and their places

pub use kit::KitStyle;
pub use knobs::{
    Adsr, BassKnobs, Drawbars, FmKnobs, PianoKnobs, PluckKnobs, SeqVoice, env_sized, knobs_sized,
};
pub use note::{Decoded, SeqNote, Untuned};
pub use pitch::{Pitch, Reading};
pub use sized::{all_sized, is_sized};
pub use wave::SeqWave;
