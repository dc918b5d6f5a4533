// The jitter of a note, which depends on the note alone, so that a score sounds the same each time.
ghost use Rattle.std.specs.Prelude.{◌≡◌};
ghost use Rattle.dsl.specs.Domain.{numeric};
ghost use Rattle.groove.specs.Humanize.{identity_of, seed_of, humanize_draws};

use dsl::{Pitch, SeqNote};
use rng::Rng;

// Keeps the generator apart from those that a score's seed gives.
const HUMANIZE_SEED_SALT: u64 = 0x6A09_E667;

// What parts the notes of a chord, which have one step and one length. All curves share one number.
pub fn pitch_identity(pitch: Pitch) -> u64
    requires { numeric pitch }
    ensures { result ≡ identity_of pitch }
{
    match pitch {
        Pitch::Const(x) => f32::to_bits(x) as u64,
        Pitch::Curve(_) => 0x4D4F_4455,
    }
}

fn humanize_seed(note: SeqNote) -> u64
    requires { numeric note.pitch }
    ensures { result ≡ seed_of note }
{
    let pitch = note.pitch;
    let identity = word::rotate_left(pitch_identity(pitch), 17);
    ((note.step as u64) << 32) ^ ((note.len as u64) << 8) ^ HUMANIZE_SEED_SALT ^ identity
}

// From -1 up to but not at 1.
#[derive(Clone, Copy)]
pub struct HumanDraws {
    pub timing: f32,
    pub gain: f32,
}

// The two draws of a note: first timing, then gain.
pub fn humanize_draws(note: SeqNote) -> HumanDraws
    requires { numeric note.pitch }
    ensures { result ≡ humanize_draws note }
{
    let hr = Rng::new(humanize_seed(note));
    let timing = hr.bi();
    let hr = timing.rng;
    let gain = hr.bi();
    HumanDraws {
        timing: timing.value,
        gain: gain.value,
    }
}
