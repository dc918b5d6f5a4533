// How long a note is, and how much of it sounds.
ghost use Rattle.std.specs.Prelude.{◌≡◌};
ghost use Rattle.dsl.specs.Domain.{Frames};
ghost use Rattle.groove.specs.Length.{length_of, sounded_of};

// A note's frames, sounded or not: at most n, and at least 1, also where len or n is 0.
pub fn note_len(len: u32, step_dur: f32, n: usize) -> usize
    requires { Frames n }
    ensures { result ≡ length_of len step_dur n }
{
    let long = std::num::nearest_u32_to_f32(len) * step_dur;
    let frames = float::f32_to_usize(float::min_f32(long, n as f32));
    if frames < 1 { 1 } else { frames }
}

// The frames of a note that lie within n: none where it starts at n or past it.
pub fn sounded_frames(n: usize, start: usize, len: usize) -> usize
    ensures { result ≡ sounded_of n start len }
{
    if start >= n {
        return 0;
    }
    let avail = n - start;
    if avail < len { avail } else { len }
}
