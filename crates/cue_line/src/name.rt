// The names of the waves.
ghost use Rattle.std.specs.Prelude.{◌≡◌};
ghost use Rattle.text_listing.specs.Printed.{Room, Printed};
ghost use Rattle.cue_line.specs.Columns.{left};
ghost use Rattle.cue_line.specs.Names.{wave_name};

use crate::put::put_bytes;
use dsl::SeqWave;

// A wave's name in ten columns.
fn wave_name(wave: SeqWave) -> [u8; 10]
    ensures { result ≡ left 10 (wave_name wave) }
{
    match wave {
        SeqWave::Square => *b"square    ",
        SeqWave::Triangle => *b"triangle  ",
        SeqWave::Sawtooth => *b"sawtooth  ",
        SeqWave::Sine => *b"sine      ",
        SeqWave::Noise => *b"noise     ",
        SeqWave::Fm => *b"fm        ",
        SeqWave::Pluck => *b"pluck     ",
        SeqWave::Piano => *b"piano     ",
        SeqWave::Epiano => *b"epiano    ",
        SeqWave::Organ => *b"organ     ",
        SeqWave::Strings => *b"strings   ",
        SeqWave::Brass => *b"brass     ",
        SeqWave::Flute => *b"flute     ",
        SeqWave::Mallet => *b"mallet    ",
        SeqWave::Bell => *b"bell      ",
        SeqWave::Bass => *b"bass      ",
        SeqWave::Kit => *b"kit       ",
        SeqWave::Cowbell => *b"cowbell   ",
    }
}

pub(crate) fn put_name(out: &mut [u8], at: usize, wave: SeqWave) -> usize
    requires { Room (left 10 (wave_name wave)) at out.old }
    ensures { Printed (left 10 (wave_name wave)) at out.old result out.new }
{
    let name = wave_name(wave);
    put_bytes(out, at, &name)
}
