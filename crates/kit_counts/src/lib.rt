// The draws of a hit of the drum kit, known before it is voiced. At a rate of the domain they are the
// frames whose time passes the source's tests in f32 (the law `kit_count`).
#![tactic(auto)]

ghost use Rattle.std.specs.Prelude.{◌≡◌, ◌≤◌};
ghost use Rattle.kit_counts.specs.KitDraws.{frames_of, draws_within, eight08_within, kit_draws};

use drum::Drum;
use dsl::KitStyle;

// The frames of the first `ms` milliseconds, and no more than there are.
fn frames_of(ms: usize, rate: u32, frames: usize) -> usize
    requires { ms ≤ 1000 }
    ensures { result ≡ frames_of ms rate frames }
{
    let within = (ms * (rate as usize) + 999) / 1000;
    frames.min(within)
}

// A kick draws for some milliseconds, a cowbell never, and any other drum in each frame.
fn draws_within(ms: usize, drum: Drum, rate: u32, frames: usize) -> usize
    requires { ms ≤ 1000 }
    ensures { result ≡ draws_within ms drum rate frames }
{
    match drum {
        Drum::Kick => frames_of(ms, rate, frames),
        Drum::Cowbell => 0,
        _ => frames,
    }
}

fn eight08_within(drum: Drum, rate: u32, frames: usize) -> usize
    ensures { result ≡ eight08_within drum rate frames }
{
    match drum {
        Drum::Kick => frames_of(4, rate, frames),
        Drum::Rim => frames_of(3, rate, frames),
        Drum::ClosedHat | Drum::OpenHat | Drum::Tom(_) | Drum::Cowbell => 0,
        _ => frames,
    }
}

// The draws of a hit of some sounded frames.
pub fn kit_draws(style: KitStyle, drum: Drum, rate: u32, frames: usize) -> usize
    ensures { result ≡ kit_draws style drum rate frames }
{
    match style {
        KitStyle::Classic => draws_within(2, drum, rate, frames),
        KitStyle::Acoustic => draws_within(18, drum, rate, frames),
        KitStyle::Electronic => draws_within(3, drum, rate, frames),
        KitStyle::Eight08 => eight08_within(drum, rate, frames),
    }
}
