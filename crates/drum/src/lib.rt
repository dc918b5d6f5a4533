// The drum that a General MIDI number names: the arms of render/kit.rs's `match midi`, which the four
// styles share.
#![tactic(auto)]

ghost use Rattle.std.specs.Prelude.{◌≡◌};
ghost use Rattle.drum.specs.Drums.{drum_at, drum_of};

// A tom holds (midi - 41) as f32, from which its pitch is made.
#[derive(Clone, Copy)]
pub enum Drum {
    Kick,
    Snare,
    Rim,
    Clap,
    ClosedHat,
    OpenHat,
    Tom(f32),
    Cowbell,
    Crash,
    Ride,
    Unmapped,
}

fn drum_at(midi: u32) -> Drum
    ensures { result ≡ drum_at midi }
{
    match midi {
        35 => Drum::Kick,
        36 => Drum::Kick,
        38 | 40 => Drum::Snare,
        37 => Drum::Rim,
        39 => Drum::Clap,
        42 | 44 => Drum::ClosedHat,
        46 => Drum::OpenHat,
        41 => Drum::Tom(0.0),
        43 => Drum::Tom(2.0),
        45 => Drum::Tom(4.0),
        47 => Drum::Tom(6.0),
        48 => Drum::Tom(7.0),
        50 => Drum::Tom(9.0),
        56 => Drum::Cowbell,
        49 | 55 | 57 => Drum::Crash,
        51 | 53 | 59 => Drum::Ride,
        _ => Drum::Unmapped,
    }
}

// No drum has a number below 0.
pub fn drum_of(midi: i32) -> Drum
    ensures { result ≡ drum_of midi }
{
    if midi < 0 {
        return Drum::Unmapped;
    }
    drum_at(midi as u32)
}
