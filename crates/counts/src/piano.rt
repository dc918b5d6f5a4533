// The frames in which a piano draws.
ghost use Rattle.std.specs.Prelude.{◌≡◌};
ghost use Rattle.counts.specs.Draws.{thump_frames};

// The frames in which the piano's hammer is heard, 0.006 seconds of them: at a rate of the domain those
// i with i / rate < 0.006 in f32 (the law `thump_is`).
pub fn thump_frames(rate: u32) -> usize
    ensures { result ≡ thump_frames rate }
{
    (3 * (rate as usize) + 499) / 500
}
