// Bytes and numbers of a text score, each read at a place.
#![tactic(auto)]

ghost use Rattle.std.specs.Prelude.{◌≡◌, ◌≤◌, ◌<◌, MatchOption, drop};
ghost use Rattle.text_digits.specs.Read.{digit_of, byte, hex, decimal};
ghost use Rattle.text_digits.specs.Answers.{place_in, value_in};

// The byte b, and the place after it. At the end of the bytes there is none.
pub fn expect(s: &[u8], at: usize, b: u8) -> Option<usize>
    ensures { place_in s.now b result ≡ byte b (drop at s.now) }
{
    if at < s.len() {
        return if s[at] == b { Some(at + 1) } else { None };
    }
    None
}

// The value of a digit of the base.
fn digit(b: u8, base: u64) -> Option<u64>
    requires { base ≤ 16 }
    ensures { MatchOption result (base ≤ digit_of b) (λ d. (d ≡ digit_of b) × (d < base)) }
{
    let d = match b {
        b'0'..=b'9' => (b - b'0') as u64,
        b'a'..=b'f' => (b - b'a') as u64 + 10,
        _ => return None,
    };
    if d < base { Some(d) } else { None }
}

// Exactly `count` lowercase hexadecimal digits: their value, and the place after them.
pub fn hex(s: &[u8], start: usize, count: usize) -> Option<(u64, usize)>
    requires { count ≤ 16 }
    ensures { value_in s.now result ≡ hex count (drop start s.now) }
{
    let mut v: u64 = 0;
    let mut at = start;
    for i in 0..count {
        if s.len() <= at {
            return None;
        }
        let d = digit(s[at], 16)?;
        v = v * 16 + d;
        at += 1;
    }
    Some((v, at))
}

// A decimal number without leading zeros, at most `most`, and the place after it. The test before v
// grows is the one that keeps it from wrapping.
pub fn decimal(s: &[u8], start: usize, most: u64) -> Option<(u64, usize)>
    requires { 9 ≤ most }
    ensures { value_in s.now result ≡ decimal most (drop start s.now) }
{
    if s.len() <= start {
        return None;
    }
    let first = s[start];
    if first == b'0' {
        return Some((0, start + 1));
    }
    let mut v = digit(first, 10)?;
    for at in start + 1..s.len() {
        let Some(next) = digit(s[at], 10) else {
            return Some((v, at));
        };
        if (most - next) / 10 < v {
            return None;
        }
        v = v * 10 + next;
    }
    Some((v, s.len()))
}
