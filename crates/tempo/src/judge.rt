// Which tempo maps a score may carry.
ghost use Rattle.std.specs.Prelude.{◌≡◌, true};
ghost use Rattle.tempo.specs.Map.{points};
ghost use Rattle.tempo.specs.Judge.{fine_at, all_of, chain, rises_to, in_domain, begins_at_zero, in_order};

use crate::map::{TempoMap, TempoPoint};

fn is_fine(p: TempoPoint) -> bool
    ensures { result ≡ fine_at p }
{
    let at = p.at;
    let num = at.num;
    if at.den == 0 {
        return false;
    }
    if num > 1000000000 {
        return false;
    }
    if num < -1000000000 {
        return false;
    }
    float::within_f32(p.bpm, 1.0, 1000.0)
}

fn all_fine(map: TempoMap) -> bool
    ensures { result ≡ all_of fine_at (points map) }
{
    let n = map.len();
    for i in 0..n {
        let p = map.points[i];
        if !is_fine(p) {
            return false;
        }
    }
    true
}

fn rises(map: TempoMap) -> bool
    requires { all_of fine_at (points map) ≡ true }
    ensures { result ≡ chain rises_to (points map) }
{
    let n = map.len();
    for i in 1..n {
        let j = i - 1;
        let p = map.points[j];
        let q = map.points[i];
        let before = p.at;
        if !before.lt(q.at) {
            return false;
        }
    }
    true
}

fn begins_at_zero(map: TempoMap) -> bool
    ensures { result ≡ begins_at_zero (points map) }
{
    if map.count == 0 {
        return true;
    }
    let first = map.points[0];
    let at = first.at;
    at.num == 0
}

impl TempoMap {
    // At most 64 points, each with a denominator, a numerator and a tempo of the domain. A numerator
    // and a denominator are judged as they were handed in, not in lowest terms.
    pub fn in_domain(self) -> bool
        ensures { result ≡ in_domain self }
    {
        if self.count > 64 {
            return false;
        }
        all_fine(self)
    }

    // Whether the first point, if any, is at beat 0, and each beat is after the one before it.
    pub fn in_order(self) -> bool
        requires { in_domain self ≡ true }
        ensures { result ≡ in_order self }
    {
        if !begins_at_zero(self) {
            return false;
        }
        rises(self)
    }
}
