// A session from slices: eight seeds and eight counts.
ghost use Rattle.std.specs.Prelude.{◌≡◌, length};
ghost use Rattle.raw_call.specs.Raw.{whole_of, session_by};
ghost use Rattle.raw_call.specs.Stations.{placed};

use session::Session;

// Whether there are eight seeds and eight counts, and four words a point.
pub(crate) fn whole(seeds: usize, counts: usize, points: usize) -> bool
    ensures { result ≡ whole_of seeds counts points }
{
    if seeds != 8 {
        return false;
    }
    if counts != 8 {
        return false;
    }
    points % 4 == 0
}

fn eight(values: &[u64]) -> [u64; 8]
    requires { length values.now ≡ 8 }
    ensures { result ≡ values.now }
{
    let mut eight = [0; 8];
    eight.copy_from_slice(values);
    eight
}

pub fn session_of(seeds: &[u64], counts: &[u64]) -> Session
    requires seeds_len { length seeds.now ≡ 8 }
    requires counts_len { length counts.now ≡ 8 }
    ensures { result ≡ session_by seeds.now counts.now }
{
    Session {
        seeds: eight(seeds),
        draws: eight(counts),
    }
}

// The count of a station in the session after a call goes to its place, where there is such a station.
pub fn put_count(counts: &mut [u64], station: u32, after: Session)
    requires { length counts.old ≡ 8 }
    ensures { counts.new ≡ placed counts.old station after.draws }
{
    if station > 7 {
        return;
    }
    let k = station as usize;
    counts[k] = after.draws[k];
}
