// The generator of dsp.rs: SplitMix64, and its draws at f32.
#![tactic(auto)]

ghost use Rattle.std.specs.Prelude.{◌≡◌};
ghost use Rattle.rng.specs.SplitMix64.{mix, advance, next, state_after};
ghost use Rattle.rng.specs.Draw.{unit_from, bi_from};

// SplitMix64's step: the odd number nearest to 2^64 divided by the golden ratio.
const GOLDEN_GAMMA: u64 = 0x9E37_79B9_7F4A_7C15;

// SplitMix64's mixer.
pub fn splitmix_mix(z: u64) -> u64
    ensures { result ≡ mix z }
{
    let a = word::wrapping_mul(z ^ (z >> 30), 0xBF58_476D_1CE4_E5B9);
    let b = word::wrapping_mul(a ^ (a >> 27), 0x94D0_49BB_1331_11EB);
    b ^ (b >> 31)
}

// The generator's state. It is a type of its own, so that a state is never taken for a draw count.
#[derive(Clone, Copy)]
pub struct Rng(u64);

// What a draw gives, and the generator after it.
#[derive(Clone, Copy)]
pub struct Draw<T> {
    pub value: T,
    pub rng: Rng,
}

impl Rng {
    // The generator at a state; a seed is the state before the first draw.
    pub fn new(state: u64) -> Rng
        ensures { result.0 ≡ state }
    {
        Rng(state)
    }

    // The generator of `seed` after c draws.
    pub fn at_draw(seed: u64, c: u64) -> Rng
        ensures { result.0 ≡ state_after seed c }
    {
        Rng(std::num::wrapping_add_u64(seed, word::wrapping_mul(c, GOLDEN_GAMMA)))
    }

    pub fn state(self) -> u64
        ensures { result ≡ self.0 }
    {
        self.0
    }

    // The next 64 bits: the state gains GOLDEN_GAMMA and is mixed.
    pub fn next_u64(self) -> Draw<u64>
        ensures { (result.value ≡ next self.0) × (result.rng.0 ≡ advance self.0) }
    {
        let s = std::num::wrapping_add_u64(self.0, GOLDEN_GAMMA);
        Draw {
            value: splitmix_mix(s),
            rng: Rng(s),
        }
    }

    // From 0 up to but not at 1, in steps of 2^-24: the top 24 bits, every one of them exact.
    pub fn unit(self) -> Draw<f32>
        ensures { (result.value ≡ unit_from self.0) × (result.rng.0 ≡ advance self.0) }
    {
        let d = self.next_u64();
        let rng = d.rng;
        Draw {
            value: ((d.value >> 40) as f32) / 16777216.0,
            rng,
        }
    }

    // From -1 up to but not at 1, in steps of 2^-23: a sample of white noise.
    pub fn bi(self) -> Draw<f32>
        ensures { (result.value ≡ bi_from self.0) × (result.rng.0 ≡ advance self.0) }
    {
        let u = self.unit();
        let rng = u.rng;
        Draw {
            value: u.value * 2.0 - 1.0,
            rng,
        }
    }
}
