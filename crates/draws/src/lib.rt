// How many draws a note takes from its generator, known before it is voiced.
#![tactic(auto)]

ghost use Rattle.std.specs.Prelude.{◌≡◌};
ghost use Rattle.draws.specs.Draws.{draws_of};

use dsl::{KitStyle, SeqWave};

// The draws of a note of some sounded frames, whose pitch at the first of them is `first`.
pub fn draw_count(wave: SeqWave, style: KitStyle, rate: u32, first: f32, frames: usize) -> usize
    ensures { result ≡ draws_of wave style rate first frames }
{
    match wave {
        SeqWave::Noise => frames,
        SeqWave::Flute => frames,
        SeqWave::Pluck => counts::string_period(rate, first),
        SeqWave::Piano => {
            let thump = counts::thump_frames(rate);
            if frames < thump { frames } else { thump }
        }
        SeqWave::Square => 0,
        SeqWave::Triangle => 0,
        SeqWave::Sawtooth => 0,
        SeqWave::Sine => 0,
        SeqWave::Fm => 0,
        SeqWave::Epiano => 0,
        SeqWave::Organ => 0,
        SeqWave::Strings => 0,
        SeqWave::Brass => 0,
        SeqWave::Mallet => 0,
        SeqWave::Bell => 0,
        SeqWave::Bass => 0,
        SeqWave::Kit => {
            let drum = kit_midi::first_drum(first);
            kit_counts::kit_draws(style, drum, rate, frames)
        }
        SeqWave::Cowbell => 0,
    }
}
