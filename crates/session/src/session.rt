// The session.
ghost use Rattle.std.specs.Prelude.{◌≡◌, ◌<◌};
ghost use Rattle.session.specs.Opened.{session_at, station_in, counted};
ghost use Rattle.session.specs.Named.{named_in, answered_in, no_station};

use crate::station::{Station, StationAnswer};
use outcome::Refusal;
use rng::Rng;

// The seeds and the draw counts of the stations 0 to 7: what a lab cites. A station's generator is its seed, set at
// its count.
#[derive(Clone, Copy)]
pub struct Session {
    pub seeds: [u64; 8],
    pub draws: [u64; 8],
}

impl Session {
    // Station 0 of `seed` after `draw` draws; the others of seed 0, before their first draw.
    pub fn open(seed: u64, draw: u64) -> Session
        ensures { result ≡ session_at seed draw }
    {
        Session {
            seeds: [seed, 0, 0, 0, 0, 0, 0, 0],
            draws: [draw, 0, 0, 0, 0, 0, 0, 0],
        }
    }

    pub fn station(self, k: usize) -> Station
        requires { k < 8 }
        ensures { result ≡ station_in self k }
    {
        let seed = self.seeds[k];
        let draw = self.draws[k];
        Station::open(seed, draw)
    }

    // With another count of station k.
    pub fn with_draw(mut self, k: usize, draw: u64) -> Session
        requires { k < 8 }
        ensures { result ≡ counted self k draw }
    {
        self.draws[k] = draw;
        self
    }

    // The station that a call names: none where the number is above 7.
    #[tactic(auto, unfolding(crate::specs::Named::named_in))]
    pub fn named(self, station: u32) -> Option<Station>
        ensures { result ≡ named_in self station }
    {
        if station > 7 {
            return None;
        }
        Some(self.station(station as usize))
    }

    // What a call answers whose station answered `answer`.
    pub fn answered(self, station: u32, answer: StationAnswer) -> Answer
        requires { station < 8 }
        ensures { result ≡ answered_in self station answer }
    {
        let after = answer.station;
        let rng = after.rng;
        let outcome = answer.outcome;
        Answer {
            session: self.with_draw(station as usize, after.draw),
            rng,
            outcome,
        }
    }

    // What a call answers that names no station.
    pub fn no_station(self) -> Answer
        ensures { result ≡ no_station self }
    {
        Answer {
            session: self,
            rng: Rng::new(0),
            outcome: Err(Refusal::NoStation),
        }
    }
}

// What a score call answers: the session after it, the generator of its station, as playing left it, and the draws
// made or why nothing was done. Where there is no such station the generator is that of the state 0.
#[derive(Clone, Copy)]
pub struct Answer {
    pub session: Session,
    pub rng: Rng,
    pub outcome: Result<u64, Refusal>,
}
