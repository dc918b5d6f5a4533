// A frame by its drum, and a hit.
ghost use Rattle.std.specs.Prelude.{◌≡◌, length};
ghost use Rattle.dsl.specs.Domain.{Frames};
ghost use Rattle.osc.specs.Phase.{seconds};
ghost use Rattle.rng.specs.SplitMix64.{state_after};
ghost use Rattle.counts.specs.Draws.{passing};
ghost use Rattle.kit_counts.specs.KitDraws.{eight08_draws};
ghost use Rattle.kit_808.specs.Eight08.{eight08_frames};
ghost use Rattle.kit_808.specs.Block.{eight08_level, eight08_by};

use crate::drums::{Eight08State, clap, kick, noise, rim, snare, tom};
use crate::levels::levels;
use crate::metal::{cowbell, crash, hat, ride};
use drum::Drum;
use kit_parts::{Hit, one_pole_step};
use osc::Out;
use rng::Rng;

// What the frames of a hit share: its drum, the rate, and the coefficients of its filters.
#[derive(Clone, Copy)]
struct Eight08 {
    drum: Drum,
    srf: f32,
    a6000: f32,
    clo_a: f32,
    chi_a: f32,
}

impl Hit for Eight08 {
    type State = Eight08State;

    ghost level_at = { λ h i. eight08_level h.drum (seconds h.srf i) };

    ghost frame_by = { λ h level i s. eight08_by h.drum level h.srf h.a6000 h.clo_a h.chi_a i s };

    fn levels(&self, from: usize, end: usize, a: &mut [f32; 64]) {
        levels(self.drum, self.srf, from, end, a)
    }

    fn frame(&self, level: f32, i: usize, s: Eight08State) -> Out<Eight08State> {
        let t = osc::frame_time(i, self.srf);
        match self.drum {
            Drum::Kick => kick(self.srf, t, s),
            Drum::Snare => snare(self.a6000, t, s),
            Drum::Rim => rim(t, s),
            Drum::Clap => clap(level, self.clo_a, self.chi_a, s),
            Drum::ClosedHat => hat(0.05, self.a6000, t, s),
            Drum::OpenHat => hat(0.35, self.a6000, t, s),
            Drum::Tom(above) => tom(above, self.srf, t, s),
            Drum::Cowbell => cowbell(t, s),
            Drum::Crash => crash(self.a6000, t, s),
            Drum::Ride => ride(self.a6000, t, s),
            Drum::Unmapped => noise(level, s),
        }
    }
}

// Hands back the generator after a draw for each frame that draws.
pub fn kit_drum_808(drum: Drum, srf: f32, rng: Rng, out: &mut [f32]) -> Rng
    requires { Frames (length out.old) }
    ensures out_after { out.new ≡ eight08_frames drum srf rng (length out.old) }
    ensures result_value { result.0 ≡ state_after rng.0 (passing (λ i. eight08_draws drum (seconds srf i)) (length out.old)) }
{
    let a6000 = one_pole_step(6000.0, srf);
    let clo_a = one_pole_step(2200.0, srf);
    let chi_a = one_pole_step(700.0, srf);
    let hit = Eight08 {
        drum,
        srf,
        a6000,
        clo_a,
        chi_a,
    };
    let start = Eight08State {
        hlp: 0.0,
        clp: 0.0,
        chp: 0.0,
        phase: 0.0,
        rng,
    };
    kit_parts::hit_frames(&hit, start, out).rng
}
