// The points of a tempo map.
ghost use Rattle.std.specs.Prelude.{◌≡◌, ◌≤◌, length};
ghost use Rattle.tempo.specs.Map.{points, no_map};

use beat::Beat;

// From `at` until the next point, the tempo is `bpm` beats per minute.
#[derive(Clone, Copy)]
pub struct TempoPoint {
    pub at: Beat,
    pub bpm: f32,
}

// Up to 64 points, of which the first `count` are looked at. With none the tempo is the score's own.
#[derive(Clone, Copy)]
pub struct TempoMap {
    pub points: [TempoPoint; 64],
    pub count: u32,
}

impl TempoMap {
    // The places are not looked at.
    pub fn none() -> TempoMap
        ensures { result ≡ no_map }
    {
        let at = Beat { num: 0, den: 1 };
        TempoMap {
            points: [TempoPoint { at, bpm: 120.0 }; 64],
            count: 0,
        }
    }

    // How many points there are: a count above 64, which a score refuses, looks at all places.
    pub fn len(self) -> usize
        ensures value { result ≡ length (points self) }
        ensures upper_bound { result ≤ 64 }
    {
        if self.count > 64 {
            return 64;
        }
        self.count as usize
    }
}
