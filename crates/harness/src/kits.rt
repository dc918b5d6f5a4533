// The number of a hit's drum, and its draws.
ghost use Rattle.std.specs.Prelude.{◌≡◌};
ghost use Rattle.dsl.specs.Kit.{style_at};
ghost use Rattle.kit_midi.specs.Midi.{midi_of};
ghost use Rattle.harness_kit.specs.Hits.{hit_draws};

#[unsafe(no_mangle)]
pub extern "C" fn h_midi(first: f32) -> i32
    ensures { result ≡ midi_of first }
{
    kit_midi::midi_of(first)
}

#[unsafe(no_mangle)]
pub extern "C" fn h_kit_draws(style: u32, midi: i32, rate: u32, frames: usize) -> usize
    ensures { result ≡ hit_draws (style_at style) midi rate frames }
{
    harness_kit::hit_draws(style, midi, rate, frames)
}
