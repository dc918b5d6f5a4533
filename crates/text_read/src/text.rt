// The whole text.
ghost use Rattle.std.specs.Prelude.{◌≡◌};
ghost use Rattle.text_read.specs.Text.{seq_of, Parses};

use crate::notes::notes;
use dsl::Adsr;
use score::{Seq, Timing};
use tempo::TempoMap;
use text_lines::{Numbers, line_e, line_g, line_s};
use text_voice_line::{Sound, line_v};

// What the lines S, G, E and V say, and how many notes there are, whose words stand in a lent slice.
#[derive(Clone, Copy)]
pub struct TextScore {
    pub numbers: Numbers,
    pub env: Adsr,
    pub sound: Sound,
    pub seed: u64,
    pub draw: u64,
    pub count: usize,
}

impl TextScore {
    // The score call's numbers and voice. A text score has no tempo map and no curve; its hop is 1.
    pub fn seq(self) -> Seq
        ensures { result ≡ seq_of self.numbers self.env self.sound }
    {
        let numbers = self.numbers;
        let sound = self.sound;
        let voice = sound.voice;
        let env = self.env;
        let timing = Timing {
            rate: numbers.rate,
            tempo: numbers.tempo,
            steps_per_beat: numbers.steps_per_beat,
            tempo_map: TempoMap::none(),
            swing: numbers.swing,
            humanize: numbers.humanize,
        };
        Seq {
            timing,
            hop: 1,
            voice,
            duty: sound.duty,
            env,
        }
    }
}

// Reads the whole of `text`, and stores the words of its notes, five a note, at the start of `words`.
// Where they do not fit, or the text is not of the form, no word changes; the form of every line is
// judged all the same.
pub fn read_score(text: &[u8], words: &mut [u32]) -> Option<TextScore>
    ensures { Parses text.now words.old result words.new }
{
    let (numbers, a) = line_s(text, 0)?;
    let (opening, b) = line_g(text, a)?;
    let (env, c) = line_e(text, b)?;
    let (sound, d) = line_v(text, c)?;
    let count = notes(text, d, words)?;
    Some(TextScore {
        numbers,
        env,
        sound,
        seed: opening.seed,
        draw: opening.draw,
        count,
    })
}
