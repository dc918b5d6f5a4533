// Operations on 64-bit words that Rust has as methods and Rattle does not.
#![tactic(auto)]

ghost use Rattle.std.specs.Prelude.{◌≡◌, ◌*◌, ◌%◌, ◌^◌};
ghost use Rattle.word.specs.Rotate.{rotated};

// a * b, modulo 2^64, by halves of 32 bits. The product of the two upper halves is a multiple of
// 2^64 and is left out.
pub fn wrapping_mul(a: u64, b: u64) -> u64
    ensures { result ≡ a * b % 2 ^ 64 }
{
    let a0 = a & 0xffff_ffff;
    let a1 = a >> 32;
    let b0 = b & 0xffff_ffff;
    let b1 = b >> 32;
    let cross = std::num::wrapping_add_u64(a1 * b0, a0 * b1);
    std::num::wrapping_add_u64(cross << 32, a0 * b0)
}

// x with its bits moved up by n places, those that leave at the top coming in at the bottom. As in
// Rust, a count from 64 on goes round again. A shift by 64 is undefined, so a count of 0 has an
// answer of its own.
pub fn rotate_left(x: u64, n: u32) -> u64
    ensures { result ≡ rotated x (n % 64) }
{
    let k = n % 64;
    if k == 0 {
        return x;
    }
    (x << k) | (x >> (64 - k))
}
