// Noise for a while from a hit's start, and after that no draw.
ghost use Rattle.std.specs.Prelude.{◌≡◌};
ghost use Rattle.kit_parts.specs.Parts.{clicked, drawn_before};

use rng::{Draw, Rng};

// A beater's click, which lasts `length` seconds.
pub fn click(t: f32, length: f32, level: f32, rng: Rng) -> Draw<f32>
    ensures { (result.value ≡ clicked length level t rng) × (result.rng ≡ drawn_before length t rng) }
{
    if t < length {
        let d = rng.bi();
        return Draw {
            value: d.value * level,
            rng: d.rng,
        };
    }
    Draw { value: 0.0, rng }
}
