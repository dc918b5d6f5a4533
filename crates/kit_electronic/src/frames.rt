// A frame by its drum, and a hit.
ghost use Rattle.std.specs.Prelude.{◌≡◌, length};
ghost use Rattle.dsl.specs.Domain.{Frames};
ghost use Rattle.osc.specs.Phase.{seconds};
ghost use Rattle.rng.specs.SplitMix64.{state_after};
ghost use Rattle.counts.specs.Draws.{passing};
ghost use Rattle.kit_counts.specs.KitDraws.{electronic_draws};
ghost use Rattle.kit_electronic.specs.Electronic.{electronic_frames};
ghost use Rattle.kit_electronic.specs.Block.{electronic_block_level, electronic_block_by};

use crate::cymbals::{glassy, hiss, ride};
use crate::drums::{ElectronicState, clap, kick, rim, snare, tom};
use crate::levels::levels;
use drum::Drum;
use kit_parts::{Hit, one_pole_step};
use osc::Out;
use rng::Rng;

// What the frames of a hit share: its drum, the rate, and the coefficients of its filters.
#[derive(Clone, Copy)]
struct Electronic {
    drum: Drum,
    srf: f32,
    a5500: f32,
    a9000: f32,
}

impl Hit for Electronic {
    type State = ElectronicState;

    ghost level_at = { λ h i. electronic_block_level h.drum (seconds h.srf i) };

    ghost frame_by = { λ h level i s. electronic_block_by h.drum level h.srf h.a5500 h.a9000 i s };

    fn levels(&self, from: usize, end: usize, a: &mut [f32; 64]) {
        levels(self.drum, self.srf, from, end, a)
    }

    fn frame(&self, level: f32, i: usize, s: ElectronicState) -> Out<ElectronicState> {
        let t = osc::frame_time(i, self.srf);
        match self.drum {
            Drum::Kick => kick(self.srf, t, s),
            Drum::Snare => snare(self.a5500, t, s),
            Drum::Rim => rim(t, s),
            Drum::Clap => clap(level, self.a5500, s),
            Drum::ClosedHat => hiss(1.5, level, self.a9000, s),
            Drum::OpenHat => glassy(0.18, 9000.0, 11500.0, 0.1, 0.14, self.a9000, t, s),
            Drum::Tom(above) => tom(above, self.srf, t, s),
            Drum::Cowbell => Out {
                sample: level,
                state: s,
            },
            Drum::Crash => glassy(0.6, 8000.0, 11000.0, 0.12, 0.5, self.a9000, t, s),
            Drum::Ride => ride(self.a9000, t, s),
            Drum::Unmapped => hiss(1.6, level, self.a9000, s),
        }
    }
}

// Hands back the generator after a draw for each frame that draws.
pub fn kit_drum_electronic(drum: Drum, srf: f32, rng: Rng, out: &mut [f32]) -> Rng
    requires { Frames (length out.old) }
    ensures out_after { out.new ≡ electronic_frames drum srf rng (length out.old) }
    ensures result_value { result.0 ≡ state_after rng.0 (passing (λ i. electronic_draws drum (seconds srf i)) (length out.old)) }
{
    let a5500 = one_pole_step(5500.0, srf);
    let a9000 = one_pole_step(9000.0, srf);
    let hit = Electronic {
        drum,
        srf,
        a5500,
        a9000,
    };
    let start = ElectronicState {
        lp: 0.0,
        lp2: 0.0,
        phase: 0.0,
        rng,
    };
    kit_parts::hit_frames(&hit, start, out).rng
}
