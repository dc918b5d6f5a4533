// The drum kit's draws from C: a style by its place.
#![tactic(auto)]

ghost use Rattle.std.specs.Prelude.{◌≡◌};
ghost use Rattle.dsl.specs.Kit.{style_at};
ghost use Rattle.harness_kit.specs.Hits.{hit_draws};

use dsl::KitStyle;

// The draws of a hit by its style's place and its drum's number; for a style that there is not, the
// largest usize.
pub fn hit_draws(style: u32, midi: i32, rate: u32, frames: usize) -> usize
    ensures { result ≡ hit_draws (style_at style) midi rate frames }
{
    let drum = drum::drum_of(midi);
    match KitStyle::at(style) {
        Some(kit) => kit_counts::kit_draws(kit, drum, rate, frames),
        None => usize::MAX,
    }
}
