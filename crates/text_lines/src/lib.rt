// Fields and lines of a text score, and its lines S, G and E. Each function reads one form at a place
// and answers what stands there and the place after it, or that the bytes are not of the form.
#![tactic(auto)]

ghost use Rattle.std.specs.Prelude.{◌≡◌, ◌≤◌, length, take, drop};
ghost use Rattle.text_lines.specs.Line.{value, field, fields, ending, line, leading, stored_in, leading_line, float_at, line_s, line_g, line_e};
ghost use Rattle.text_digits.specs.Answers.{place_in, value_in};

use dsl::Adsr;
use text_digits::{decimal, expect, hex};

// The kinds of a field: the bits of an f32 in 8 digits, or a decimal number of 32 bits. They stay numbers: `field`,
// `ending` and `line` take any, as their definitions do, and an enum would ask more of a caller.
pub const FLOAT: u8 = 8;

pub const WORD: u8 = 32;

fn value(s: &[u8], at: usize, kind: u8) -> Option<(u64, usize)>
    ensures { value_in s.now result ≡ value kind (drop at s.now) }
{
    if kind == FLOAT {
        return hex(s, at, 8);
    }
    decimal(s, at, 0xffff_ffff)
}

// A tab and a value.
pub fn field(s: &[u8], at: usize, kind: u8) -> Option<(u64, usize)>
    ensures { value_in s.now result ≡ field kind (drop at s.now) }
{
    let next = expect(s, at, b'\t')?;
    value(s, next, kind)
}

// A field of each of `kinds`, their values into `values`: those before the first that is not of its
// kind are stored.
fn fields(s: &[u8], start: usize, kinds: &[u8], values: &mut [u32]) -> Option<usize>
    requires { length kinds.now ≤ length values.old }
    ensures result_after { place_in s.now (take (length kinds.now) values.new) result ≡ fields kinds.now (drop start s.now) }
    ensures stored { values.new ≡ stored_in (leading kinds.now (drop start s.now)) values.old }
{
    let mut at = start;
    for (i, kind) in kinds.iter().enumerate() {
        let (v, next) = field(s, at, *kind)?;
        values[i] = v as u32;
        at = next;
    }
    Some(at)
}

// The fields that end a line, and its newline.
pub fn ending(s: &[u8], at: usize, kinds: &[u8], values: &mut [u32]) -> Option<usize>
    requires { length kinds.now ≤ length values.old }
    ensures result_after { place_in s.now (take (length kinds.now) values.new) result ≡ ending kinds.now (drop at s.now) }
    ensures stored { values.new ≡ stored_in (leading kinds.now (drop at s.now)) values.old }
{
    let last = fields(s, at, kinds, values)?;
    expect(s, last, b'\n')
}

// A line: a letter and the fields.
pub fn line(s: &[u8], at: usize, letter: u8, kinds: &[u8], values: &mut [u32]) -> Option<usize>
    requires { length kinds.now ≤ length values.old }
    ensures result_after { place_in s.now (take (length kinds.now) values.new) result ≡ line letter kinds.now (drop at s.now) }
    ensures stored { values.new ≡ stored_in (leading_line letter kinds.now (drop at s.now)) values.old }
{
    let next = expect(s, at, letter)?;
    ending(s, next, kinds, values)
}

// The f32 of the bits at i; past the end the bits are 0.
pub fn float_at(bits: &[u32], i: usize) -> f32
    ensures { result ≡ float_at bits.now i }
{
    if i < bits.len() {
        return rounding::f32_from_bits(bits[i]);
    }
    rounding::f32_from_bits(0)
}

// The numbers of a line S.
#[derive(Clone, Copy)]
pub struct Numbers {
    pub rate: u32,
    pub n: u32,
    pub tempo: f32,
    pub steps_per_beat: u32,
    pub swing: f32,
    pub humanize: f32,
}

pub fn line_s(s: &[u8], at: usize) -> Option<(Numbers, usize)>
    ensures { value_in s.now result ≡ line_s (drop at s.now) }
{
    let mut values = [0u32; 6];
    let kinds = [WORD, WORD, FLOAT, WORD, FLOAT, FLOAT];
    let next = line(s, at, b'S', &kinds, &mut values)?;
    let numbers = Numbers {
        rate: values[0],
        n: values[1],
        tempo: float_at(&values, 2),
        steps_per_beat: values[3],
        swing: float_at(&values, 4),
        humanize: float_at(&values, 5),
    };
    Some((numbers, next))
}

// What opens the session: a line G.
#[derive(Clone, Copy)]
pub struct Opening {
    pub seed: u64,
    pub draw: u64,
}

pub fn line_g(s: &[u8], at: usize) -> Option<(Opening, usize)>
    ensures { value_in s.now result ≡ line_g (drop at s.now) }
{
    let seed_tab = expect(s, at, b'G')?;
    let seed_at = expect(s, seed_tab, b'\t')?;
    let (seed, draw_tab) = hex(s, seed_at, 16)?;
    let draw_at = expect(s, draw_tab, b'\t')?;
    let (draw, end) = decimal(s, draw_at, 0xffff_ffff_ffff_ffff)?;
    let next = expect(s, end, b'\n')?;
    Some((Opening { seed, draw }, next))
}

pub fn line_e(s: &[u8], at: usize) -> Option<(Adsr, usize)>
    ensures { value_in s.now result ≡ line_e (drop at s.now) }
{
    let mut values = [0u32; 5];
    let kinds = [FLOAT; 5];
    let next = line(s, at, b'E', &kinds, &mut values)?;
    let env = Adsr {
        a: float_at(&values, 0),
        d: float_at(&values, 1),
        s: float_at(&values, 2),
        r: float_at(&values, 3),
        punch: float_at(&values, 4),
    };
    Some((env, next))
}
