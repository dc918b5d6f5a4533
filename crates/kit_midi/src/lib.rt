// The drum that a hit plays. It alone of what judges a score needs a logarithm, so it is a crate of its
// own.
#![tactic(auto)]

ghost use Rattle.std.specs.Prelude.{◌≡◌};
ghost use Rattle.kit_midi.specs.Midi.{midi_of, first_drum};

use drum::Drum;

// The MIDI number nearest to the first pitch, which is raised to 8 Hz where it is below (or a NaN).
pub fn midi_of(first: f32) -> i32
    ensures { result ≡ midi_of first }
{
    let midi = dsp::hz_to_midi(float::max_f32(first, 8.0));
    float::f32_to_i32(float::round_f32(midi))
}

// The drum that a hit plays whose first pitch is `first`.
pub fn first_drum(first: f32) -> Drum
    ensures { result ≡ first_drum first }
{
    let midi = midi_of(first);
    drum::drum_of(midi)
}
