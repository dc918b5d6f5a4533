// How many draws lie between two states of a generator.
#![tactic(auto)]

ghost use Rattle.std.specs.Prelude.{◌≡◌, ℕ, ◌^◌, ◌<◌};
ghost use Rattle.rng.specs.SplitMix64.{state_after};

use rng::Rng;

// What GOLDEN_GAMMA is multiplied by to give 1 modulo 2^64.
const GAMMA_INVERSE: u64 = 0xF1DE_83E1_9937_733D;

// The draws after which `from` is at `to`: a generator comes back to a state after 2^64 draws and not before,
// so that there is one such number.
pub fn distance(from: Rng, to: Rng) -> u64
    ensures { (d : ℕ) → d < 2 ^ 64 → to.0 ≡ state_after from.0 d → result ≡ d }
{
    let gap = std::num::wrapping_sub_u64(to.state(), from.state());
    word::wrapping_mul(gap, GAMMA_INVERSE)
}
