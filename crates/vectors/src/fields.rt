// Fields of a line, and numbers in them.
ghost use Rattle.std.specs.Prelude.{◌+◌, ◌^◌, ◌≤◌, ◌<◌};

use crate::patterns::f32_field;

// Field k, counted from 0; empty where the line has fewer fields.
fn field(line: &[u8], k: usize) -> &[u8] {
    line.split(|b| *b == b' ').nth(k).unwrap_or(&[])
}

// Whether the first field is `name`.
pub fn is_named(line: &[u8], name: &[u8]) -> bool {
    field(line, 0) == name
}

// The value of a lowercase hexadecimal digit.
fn digit(b: u8) -> Option<u64> {
    match b {
        b'0'..=b'9' => Some(u64::from(b - b'0')),
        b'a'..=b'f' => Some(u64::from(b - b'a') + 10),
        _ => None,
    }
}

// The number that the digits up to the first other byte stand for, modulo 2^64.
fn hex(s: &[u8]) -> u64 {
    s.iter()
        .map_while(|b| digit(*b))
        .fold(0, |n, d| (n << 4) | d)
}

// The number in field k.
pub fn u64_field(line: &[u8], k: usize) -> u64 {
    hex(field(line, k))
}

// The low half of the number in field k.
pub fn u32_field(line: &[u8], k: usize) -> u32 {
    (u64_field(line, k) % 0x1_0000_0000) as u32
}

// The number in field k, at most `most`.
pub fn length_field(line: &[u8], k: usize, most: usize) -> usize
    ensures { result ≤ most }
{
    (u64_field(line, k) as usize).min(most)
}

// A number that may stand in a field.
pub trait Number: Copy + Default {
    fn at(line: &[u8], k: usize) -> Self;
}

impl Number for u32 {
    fn at(line: &[u8], k: usize) -> u32 {
        u32_field(line, k)
    }
}

impl Number for u64 {
    fn at(line: &[u8], k: usize) -> u64 {
        u64_field(line, k)
    }
}

impl Number for f32 {
    fn at(line: &[u8], k: usize) -> f32 {
        f32_field(line, k)
    }
}

// The numbers of the N fields from `from` on, 0 in those that the line lacks.
pub fn numbers<T: Number, const N: usize>(line: &[u8], from: usize) -> [T; N]
    requires { from + N < 2 ^ 64 }
{
    let mut out = [T::default(); N];
    for (i, x) in out.iter_mut().enumerate() {
        *x = T::at(line, from + i);
    }
    out
}
