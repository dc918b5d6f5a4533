// A frame by its drum, and a hit.
ghost use Rattle.std.specs.Prelude.{◌≡◌, length};
ghost use Rattle.dsl.specs.Domain.{Frames};
ghost use Rattle.osc.specs.Phase.{seconds};
ghost use Rattle.rng.specs.SplitMix64.{state_after};
ghost use Rattle.counts.specs.Draws.{passing};
ghost use Rattle.kit_counts.specs.KitDraws.{classic_draws};
ghost use Rattle.kit_classic.specs.Classic.{classic_frames};
ghost use Rattle.kit_classic.specs.Block.{classic_block_level, classic_block_by};

use crate::cymbals::{hiss, ride};
use crate::drums::{ClassicState, kick, noise, rim, snare, tom};
use crate::levels::levels;
use drum::Drum;
use kit_parts::Hit;
use osc::Out;
use rng::Rng;

// What the frames of a hit share: its drum, the rate, and the coefficient of its filter.
#[derive(Clone, Copy)]
struct Classic {
    drum: Drum,
    srf: f32,
    hp_a: f32,
}

impl Hit for Classic {
    type State = ClassicState;

    ghost level_at = { λ h i. classic_block_level h.drum (seconds h.srf i) };

    ghost frame_by = { λ h level i s. classic_block_by h.drum level h.srf h.hp_a i s };

    fn levels(&self, from: usize, end: usize, a: &mut [f32; 64]) {
        levels(self.drum, self.srf, from, end, a)
    }

    fn frame(&self, level: f32, i: usize, s: ClassicState) -> Out<ClassicState> {
        let t = osc::frame_time(i, self.srf);
        match self.drum {
            Drum::Kick => kick(self.srf, t, s),
            Drum::Snare => snare(t, s),
            Drum::Rim => rim(t, s),
            Drum::Clap => noise(level, s),
            Drum::ClosedHat => hiss(level, self.hp_a, s),
            Drum::OpenHat => hiss(level, self.hp_a, s),
            Drum::Tom(above) => tom(above, self.srf, t, s),
            Drum::Cowbell => Out {
                sample: level,
                state: s,
            },
            Drum::Crash => hiss(level, self.hp_a, s),
            Drum::Ride => ride(self.hp_a, t, s),
            Drum::Unmapped => noise(level, s),
        }
    }
}

// Hands back the generator after a draw for each frame that draws.
pub fn kit_drum_classic(drum: Drum, srf: f32, rng: Rng, out: &mut [f32]) -> Rng
    requires { Frames (length out.old) }
    ensures out_after { out.new ≡ classic_frames drum srf rng (length out.old) }
    ensures result_value { result.0 ≡ state_after rng.0 (passing (λ i. classic_draws drum (seconds srf i)) (length out.old)) }
{
    let hp_a = kit_parts::one_pole_step(5500.0, srf);
    let hit = Classic { drum, srf, hp_a };
    let start = ClassicState {
        lp: 0.0,
        phase: 0.0,
        rng,
    };
    kit_parts::hit_frames(&hit, start, out).rng
}
