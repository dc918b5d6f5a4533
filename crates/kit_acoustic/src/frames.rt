// A frame by its drum, and a hit.
ghost use Rattle.std.specs.Prelude.{◌≡◌, length};
ghost use Rattle.dsl.specs.Domain.{Frames};
ghost use Rattle.osc.specs.Phase.{seconds};
ghost use Rattle.rng.specs.SplitMix64.{state_after};
ghost use Rattle.counts.specs.Draws.{passing};
ghost use Rattle.kit_counts.specs.KitDraws.{acoustic_draws};
ghost use Rattle.kit_acoustic.specs.Acoustic.{coefficients_of, acoustic_frames};
ghost use Rattle.kit_acoustic.specs.Block.{acoustic_block_level, acoustic_block_by};

use crate::clap::clap;
use crate::cymbals::{crash, hat, ride};
use crate::drums::{AcousticState, Coefficients, kick, rim, snare, tom, unmapped};
use crate::levels::levels;
use drum::Drum;
use kit_parts::{Hit, one_pole_step};
use osc::Out;
use rng::Rng;

fn coefficients(srf: f32) -> Coefficients
    ensures { result ≡ coefficients_of srf }
{
    Coefficients {
        a400: one_pole_step(400.0, srf),
        a900: one_pole_step(900.0, srf),
        a2000: one_pole_step(2000.0, srf),
        a2500: one_pole_step(2500.0, srf),
        a3000: one_pole_step(3000.0, srf),
        a3500: one_pole_step(3500.0, srf),
        a4000: one_pole_step(4000.0, srf),
        a6500: one_pole_step(6500.0, srf),
        a7000: one_pole_step(7000.0, srf),
        a8000: one_pole_step(8000.0, srf),
        a11000: one_pole_step(11000.0, srf),
        a12000: one_pole_step(12000.0, srf),
    }
}

// What the frames of a hit share: its drum, the rate, and the coefficients of its filters.
#[derive(Clone, Copy)]
struct Acoustic {
    drum: Drum,
    srf: f32,
    k: Coefficients,
}

impl Hit for Acoustic {
    type State = AcousticState;

    ghost level_at = { λ h i. acoustic_block_level h.drum (seconds h.srf i) };

    ghost frame_by = { λ h level i s. acoustic_block_by h.drum level h.k h.srf i s };

    fn levels(&self, from: usize, end: usize, a: &mut [f32; 64]) {
        levels(self.drum, self.srf, from, end, a)
    }

    fn frame(&self, level: f32, i: usize, s: AcousticState) -> Out<AcousticState> {
        let t = osc::frame_time(i, self.srf);
        match self.drum {
            Drum::Kick => kick(self.k, self.srf, t, s),
            Drum::Snare => snare(self.k, t, s),
            Drum::Rim => rim(self.k, t, s),
            Drum::Clap => clap(level, self.k, s),
            Drum::ClosedHat => hat(0.60, 0.55, level, self.k, s),
            Drum::OpenHat => hat(0.55, 0.60, level, self.k, s),
            Drum::Tom(above) => tom(above, self.k, self.srf, t, s),
            Drum::Cowbell => Out {
                sample: level,
                state: s,
            },
            Drum::Crash => crash(self.k, t, s),
            Drum::Ride => ride(self.k, t, s),
            Drum::Unmapped => unmapped(level, self.k, s),
        }
    }
}

// Hands back the generator after a draw for each frame that draws.
pub fn kit_drum_acoustic(drum: Drum, srf: f32, rng: Rng, out: &mut [f32]) -> Rng
    requires { Frames (length out.old) }
    ensures out_after { out.new ≡ acoustic_frames drum srf rng (length out.old) }
    ensures result_value { result.0 ≡ state_after rng.0 (passing (λ i. acoustic_draws drum (seconds srf i)) (length out.old)) }
{
    let k = coefficients(srf);
    let hit = Acoustic { drum, srf, k };
    let start = AcousticState {
        lpa: 0.0,
        lpb: 0.0,
        hpa: 0.0,
        phase: 0.0,
        phase2: 0.0,
        rng,
    };
    kit_parts::hit_frames(&hit, start, out).rng
}
