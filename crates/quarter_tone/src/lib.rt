// Quarter tones by number: the pitches of 24 steps to the octave, from 8.2 Hz at q = 0 to 12.9 kHz at
// q = 255, with A at 440 Hz at q = 138.
#![tactic(auto)]

ghost use Rattle.std.specs.Prelude.{◌≡◌};
ghost use Rattle.quarter_tone.specs.Halves.{halves};
ghost use Rattle.quarter_tone.specs.Lookup.{tone_of, tone_bits};

// The entries 232 to 255, an octave. Entry q is the f32 nearest to 440 × 2^((q − 138) / 24), so that each is half the
// entry 24 places above it, and halving an f32 of this size is exact.
const HIGHEST: [f32; 24] = [
    6644.875, 6839.585, 7040.0, 7246.2876, 7458.62, 7677.1743, 7902.133, 8133.683, 8372.019,
    8617.337, 8869.844, 9129.75, 9397.272, 9672.634, 9956.063, 10247.799, 10548.082, 10857.164,
    11175.304, 11502.765, 11839.821, 12186.755, 12543.854, 12911.417,
];

fn halved(x: f32, times: u32) -> f32
    ensures { result ≡ halves x times }
{
    let mut y = x;
    for _k in 0..times {
        y = y * 0.5;
    }
    y
}

pub fn quarter_tone(q: u32) -> Option<f32>
    ensures { result ≡ tone_of q }
{
    if q < 256 {
        let octaves = (255 - q) / 24;
        let i = (q + 24 * octaves - 232) as usize;
        Some(halved(HIGHEST[i], octaves))
    } else {
        None
    }
}

// The f32 bits of entry q, as a text score writes a pitch; 0 for a number above 255.
pub fn quarter_tone_bits(q: u32) -> u32
    ensures { result ≡ tone_bits q }
{
    match quarter_tone(q) {
        Some(hertz) => f32::to_bits(hertz),
        None => 0,
    }
}
