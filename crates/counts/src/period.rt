// The period of a plucked string.
ghost use Rattle.std.specs.Prelude.{◌≡◌};
ghost use Rattle.counts.specs.Period.{period_of};

// The values of a string that sounds at the pitch `first`: at least 2, and at a rate of the domain at
// most 9,600 (the law `period_fits`). The source raises the clamp's upper bound to 20, since Rust's
// clamp stops at bounds out of order; ours has a value there, and no rate of the domain is so low.
pub fn string_period(rate: u32, first: f32) -> usize
    ensures { result ≡ period_of rate first }
{
    let srf = std::num::nearest_u32_to_f32(rate);
    let pitch = float::clamp_f32(first, 20.0, srf / 2.0);
    let period = float::f32_to_usize(float::round_f32(srf / pitch));
    if period < 2 { 2 } else { period }
}
