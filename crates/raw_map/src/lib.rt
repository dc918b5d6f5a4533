// A tempo map from words: what the calls from C and the outside vectors have in place of one.
#![tactic(auto)]

ghost use Rattle.std.specs.Prelude.{◌≡◌, ◌+◌, ◌*◌, ◌≤◌, ◌<◌, min, ◌++◌, length, drop};
ghost use Rattle.laws.specs.Listed.{listed};
ghost use Rattle.tempo.specs.Map.{no_map};
ghost use Rattle.raw_map.specs.Words.{signed_of, point_in, map_of};

use beat::Beat;
use tempo::{TempoMap, TempoPoint};

// A number in two's complement from its low and its high word.
fn signed(low: u32, high: u32) -> i64
    ensures { result ≡ signed_of low high }
{
    let bits = (high as u64) * 4294967296 + low as u64;
    bits.cast_signed()
}

fn point_in(words: &[u32], i: usize) -> TempoPoint
    requires { i * 4 + 3 < length words.now }
    ensures { result ≡ point_in words.now i }
{
    let k = i * 4;
    let at = Beat {
        num: signed(words[k], words[k + 1]),
        den: words[k + 2],
    };
    TempoPoint {
        at,
        bpm: rounding::f32_from_bits(words[k + 3]),
    }
}

fn points_in(words: &[u32], n: usize) -> [TempoPoint; 64]
    requires n_bound { n ≤ 64 }
    requires n_in_bounds { n * 4 ≤ length words.now }
    ensures { result ≡ listed (point_in words.now) n ++ drop n no_map.points }
{
    let none = TempoMap::none();
    let mut points = none.points;
    for i in 0..n {
        points[i] = point_in(words, i);
    }
    points
}

// Of more than 64 points the first 64 are read, and the count is 65, which a score refuses. Words past the last four are left out.
pub fn map_of(words: &[u32]) -> TempoMap
    ensures { result ≡ map_of words.now }
{
    let n = words.len() / 4;
    TempoMap {
        points: points_in(words, n.min(64)),
        count: n.min(65) as u32,
    }
}
