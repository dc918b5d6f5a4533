// Beats to seconds in f64, from point to point. A map of no points has no tempo of its own, and nothing here is asked of it.
ghost use Rattle.std.specs.Prelude.{◌≡◌, ◌<◌, ◌≤◌, length, drop};
ghost use Rattle.tempo.specs.Shared.{Shared, span_at};
ghost use Rattle.tempo.specs.Map.{points, floored, past, begun, seconds_from, walked, seconds_at, tempo_from, bpm_at};

use crate::map::{TempoMap, TempoPoint};

// Where a walk stands: the next point, and of the last one that it passed the seconds, the beat and the tempo.
#[derive(Clone, Copy)]
pub struct Walk {
    pub next: usize,
    pub secs: f64,
    pub prev_beat: f64,
    pub bpm: f64,
}

// A tempo below 1 counts as 1.
fn floor_bpm(bpm: f32) -> f64
    ensures { result ≡ floored bpm }
{
    float::max_f64(std::num::f32_to_f64_with_nan(bpm), 1.0)
}

impl Walk {
    fn seconds(self, beat: f64) -> f64
        ensures { result ≡ seconds_from self beat }
    {
        self.secs + (beat - self.prev_beat) * 60.0 / self.bpm
    }

    // Past a point at a beat.
    fn pass(self, at: f64, bpm: f32) -> Walk
        requires { self.next < 64 }
        ensures { result ≡ past self at bpm }
    {
        Walk {
            next: self.next + 1,
            secs: self.seconds(at),
            prev_beat: at,
            bpm: floor_bpm(bpm),
        }
    }
}

fn begin(map: TempoMap) -> Walk
    requires { 0 < length (points map) }
    ensures { result ≡ begun (points map) }
{
    let first = map.points[0];
    Walk {
        next: 1,
        secs: 0.0,
        prev_beat: 0.0,
        bpm: floor_bpm(first.bpm),
    }
}

// On from where a walk stands, past the points before a beat.
fn walk_to(map: TempoMap, from: Walk, beat: f64) -> Walk
    ensures { result ≡ walked beat (drop from.next (points map)) from }
{
    let n = map.len();
    let mut w = from;
    while w.next < n {
        let i = w.next;
        let p = map.points[i];
        let place = p.at;
        let at = place.to_f64();
        if beat <= at {
            return w;
        }
        w = w.pass(at, p.bpm);
    }
    w
}

// The seconds at a beat.
pub fn tempo_map_seconds_at(map: TempoMap, beat: f64) -> f64
    requires { 0 < length (points map) }
    ensures { result ≡ seconds_at (points map) beat }
{
    let w = walk_to(map, begin(map), beat);
    w.seconds(beat)
}

// On from where a walk stands, the tempo of the last point that is not past the beat.
fn tempo_from(map: TempoMap, from: Walk, beat: f64) -> f64
    ensures { result ≡ tempo_from beat (drop from.next (points map)) from.bpm }
{
    let n = map.len();
    let mut bpm = from.bpm;
    for i in from.next..n {
        let p = map.points[i];
        let place = p.at;
        if beat < place.to_f64() {
            return bpm;
        }
        bpm = floor_bpm(p.bpm);
    }
    bpm
}

// The tempo in effect at a beat.
pub fn tempo_map_bpm_at(map: TempoMap, beat: f64) -> f64
    requires { 0 < length (points map) }
    ensures { result ≡ bpm_at (points map) beat }
{
    tempo_from(map, begin(map), beat)
}

// Past the points before both beats.
fn walk_both(map: TempoMap, from: f64, to: f64) -> Walk
    requires { 0 < length (points map) }
    ensures { Shared (points map) from to result }
{
    let n = map.len();
    let mut w = begin(map);
    while w.next < n {
        let i = w.next;
        let p = map.points[i];
        let place = p.at;
        let at = place.to_f64();
        if from <= at {
            return w;
        }
        if to <= at {
            return w;
        }
        w = w.pass(at, p.bpm);
    }
    w
}

// The tempo at a beat, and the seconds there and at a second beat.
#[derive(Clone, Copy)]
pub struct Span {
    pub bpm: f64,
    pub start: f64,
    pub end: f64,
}

// One walk to the first beat serves all three.
pub fn span_at(map: TempoMap, from: f64, to: f64) -> Span
    requires { 0 < length (points map) }
    ensures { result ≡ span_at (points map) from to }
{
    let w = walk_both(map, from, to);
    let start = walk_to(map, w, from);
    let end = walk_to(map, w, to);
    Span {
        bpm: tempo_from(map, w, from),
        start: start.seconds(from),
        end: end.seconds(to),
    }
}
