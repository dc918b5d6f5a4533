// One station, as a score call plays from it.
ghost use Rattle.std.specs.Prelude.{◌≡◌};
ghost use Rattle.session.specs.Opened.{station_at};

use outcome::Refusal;
use rng::Rng;

// A station's generator, and how many draws were made of it.
#[derive(Clone, Copy)]
pub struct Station {
    pub rng: Rng,
    pub draw: u64,
}

impl Station {
    // The station of `seed` after `draw` draws.
    pub fn open(seed: u64, draw: u64) -> Station
        ensures { result ≡ station_at seed draw }
    {
        let rng = Rng::at_draw(seed, draw);
        Station { rng, draw }
    }
}

// What a score call on a station answers: the station after it, and the draws made or why nothing was done.
#[derive(Clone, Copy)]
pub struct StationAnswer {
    pub station: Station,
    pub outcome: Result<u64, Refusal>,
}
