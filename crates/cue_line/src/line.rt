// The line of a note.
ghost use Rattle.text_listing.specs.Printed.{Room, Printed};
ghost use Rattle.cue_line.specs.Line.{time_text, sound_text, line_text};

use crate::cell::put_right;
use crate::name::put_name;
use dsl::SeqWave;
use text_listing::put_byte;

// What the line of a note shows, column by column.
#[derive(Clone, Copy)]
pub struct Cue {
    pub place: u64, // in the list of notes, from 0
    pub step: u32,
    pub start: Option<u64>, // its first frame
    pub sounded: u64, // how many frames of it sound
    pub wave: SeqWave,
    pub first: Option<u64>, // the draw count reached before it
    pub draws: u64,
}

// The columns of where the note stands.
fn put_time(out: &mut [u8], at: usize, cue: Cue) -> usize
    requires { Room (time_text cue) at out.old }
    ensures { Printed (time_text cue) at out.old result out.new }
{
    let start = cue.start;
    let second = put_right(out, at, 4, Some(cue.place));
    let third = put_right(out, second, 8, Some(cue.step as u64));
    let fourth = put_right(out, third, 9, start);
    put_right(out, fourth, 9, Some(cue.sounded))
}

// The columns of what it plays and draws, and the line feed.
fn put_sound(out: &mut [u8], at: usize, cue: Cue) -> usize
    requires { Room (sound_text cue) at out.old }
    ensures { Printed (sound_text cue) at out.old result out.new }
{
    let wave = cue.wave;
    let first = cue.first;
    let second = put_name(out, at, wave);
    let third = put_right(out, second, 21, first);
    let fourth = put_right(out, third, 11, Some(cue.draws));
    put_byte(out, fourth, b'\n')
}

pub fn put_line(out: &mut [u8], at: usize, cue: Cue) -> usize
    requires { Room (line_text cue) at out.old }
    ensures { Printed (line_text cue) at out.old result out.new }
{
    let next = put_time(out, at, cue);
    put_sound(out, next, cue)
}
