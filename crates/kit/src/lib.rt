// `kit_drum` of render/kit.rs: one hit of the drum kit. The first pitch picks the drum and the voice's
// style the kit.
#![tactic(auto)]

ghost use Rattle.std.specs.Prelude.{◌≡◌, length};
ghost use Rattle.dsl.specs.Domain.{Rate, Frames};
ghost use Rattle.rng.specs.SplitMix64.{state_after};
ghost use Rattle.kit_counts.specs.KitDraws.{kit_draws};
ghost use Rattle.kit_midi.specs.Midi.{first_drum};
ghost use Rattle.kit.specs.Kit.{kit_frames};

use dsl::KitStyle;
use rng::Rng;

// Hands back the generator after the hit's draws.
pub fn kit_drum(style: KitStyle, first: f32, rate: u32, rng: Rng, out: &mut [f32]) -> Rng
    requires rate { Rate rate }
    requires frames { Frames (length out.old) }
    ensures out_after { out.new ≡ kit_frames style first rate rng (length out.old) }
    ensures result_value { result.0 ≡ state_after rng.0 (kit_draws style (first_drum first) rate (length out.old)) }
{
    let drum = kit_midi::first_drum(first);
    let srf = std::num::nearest_u32_to_f32(rate);
    match style {
        KitStyle::Classic => kit_classic::kit_drum_classic(drum, srf, rng, out),
        KitStyle::Acoustic => kit_acoustic::kit_drum_acoustic(drum, srf, rng, out),
        KitStyle::Electronic => kit_electronic::kit_drum_electronic(drum, srf, rng, out),
        KitStyle::Eight08 => kit_808::kit_drum_808(drum, srf, rng, out),
    }
}
