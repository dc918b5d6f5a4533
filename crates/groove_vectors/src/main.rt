// Replays the groove and the draw counts on a list of cases. A line of standard input names what is
// asked and gives its arguments; the original's answer is appended to it. A line whose arguments
// lie outside the domain gets no answer.
#![tactic(auto)]

ghost use Rattle.std.specs.Prelude.{◌≡◌, ◌≤◌, ◌<◌, length};
ghost use Rattle.programs.specs.Streams.{Grows};
ghost use Rattle.dsl.specs.Domain.{numeric, Frames};
ghost use Rattle.tempo.specs.Map.{points};

use dsl::{Decoded, KitStyle, SeqNote, SeqWave};
use std::io;
use std::io::{BufWriter, Write};
use tempo::TempoMap;

fn print_place<W: Write>(
    writer: &mut W,
    note: SeqNote,
    swing: f32,
    humanize: f32,
    step_dur: f32,
    n: usize,
) -> io::Result<()>
    requires numeric { numeric note.pitch }
    requires frames { Frames n }
    ensures { Grows (W.contents writer.old) (W.contents writer.new) }
{
    let groove = groove::groove_note(note, swing, humanize, step_dur);
    let len = groove::note_len(note.len, step_dur, n);
    vectors::print_u64(writer, groove.start as u64)?;
    vectors::print_f32(writer, groove.gain)?;
    vectors::print_u64(writer, len as u64)?;
    vectors::print_u64(writer, groove::sounded_frames(n, groove.start, len) as u64)
}

fn print_draws<W: Write>(writer: &mut W, note: SeqNote) -> io::Result<()>
    requires { numeric note.pitch }
    ensures { Grows (W.contents writer.old) (W.contents writer.new) }
{
    let draws = groove::humanize_draws(note);
    vectors::print_f32(writer, draws.timing)?;
    vectors::print_f32(writer, draws.gain)
}

// groove RATE BPM STEPS-PER-BEAT SWING HUMANIZE N STEP LEN KIND PITCH GAIN: start, gain, length,
// sounded frames, and the draws of humanize, timing first.
fn answer_groove<W: Write>(writer: &mut W, line: &[u8], note: SeqNote) -> io::Result<()>
    requires { numeric note.pitch }
    ensures { Grows (W.contents writer.old) (W.contents writer.new) }
{
    let n = vectors::u32_field(line, 6) as usize;
    if n > 16777216 {
        return Ok(());
    }
    let step_dur = groove::step_dur(
        vectors::u32_field(line, 1),
        vectors::f32_field(line, 2),
        vectors::u32_field(line, 3),
    );
    let swing = vectors::f32_field(line, 4);
    print_place(
        writer,
        note,
        swing,
        vectors::f32_field(line, 5),
        step_dur,
        n,
    )?;
    print_draws(writer, note)
}

// The note of the five fields from `from` on.
fn note_of(line: &[u8], from: usize) -> Decoded
    requires { from ≤ 1024 }
{
    SeqNote::decode(
        vectors::u32_field(line, from),
        vectors::u32_field(line, from + 1),
        vectors::u32_field(line, from + 2),
        vectors::u32_field(line, from + 3),
        vectors::u32_field(line, from + 4),
    )
}

fn replay_groove<W: Write>(writer: &mut W, line: &[u8]) -> io::Result<()>
    ensures { Grows (W.contents writer.old) (W.contents writer.new) }
{
    let Decoded::Note(note) = note_of(line, 7) else {
        return Ok(());
    };
    let pitch = note.pitch;
    if pitch.is_sized() {
        answer_groove(writer, line, note)?;
    }
    Ok(())
}

// The words of the points are in the fields from 12 on.
fn map_of(line: &[u8]) -> TempoMap {
    let count = vectors::length_field(line, 11, 256);
    let values = vectors::numbers::<u32, 256>(line, 12);
    raw_map::map_of(&values[..count])
}

// mapped RATE STEPS-PER-BEAT SWING HUMANIZE N STEP LEN KIND PITCH GAIN, then how many words of tempo points
// there are, and these: start, end, gain, length, sounded frames.
fn answer_mapped<W: Write>(
    writer: &mut W,
    line: &[u8],
    note: SeqNote,
    map: TempoMap,
) -> io::Result<()>
    requires numeric { numeric note.pitch }
    requires nonzero { 0 < length (points map) }
    ensures { Grows (W.contents writer.old) (W.contents writer.new) }
{
    let mapped = groove::groove_note_mapped(
        note,
        vectors::f32_field(line, 3),
        vectors::f32_field(line, 4),
        map,
        vectors::u32_field(line, 2),
        vectors::u32_field(line, 1),
    );
    let n = vectors::u32_field(line, 5) as usize;
    let len = groove::mapped_len(mapped.start, mapped.end, n);
    vectors::print_u64(writer, mapped.start as u64)?;
    vectors::print_u64(writer, mapped.end as u64)?;
    vectors::print_f32(writer, mapped.gain)?;
    vectors::print_u64(writer, len as u64)?;
    vectors::print_u64(writer, groove::sounded_frames(n, mapped.start, len) as u64)
}

fn replay_mapped<W: Write>(writer: &mut W, line: &[u8]) -> io::Result<()>
    ensures { Grows (W.contents writer.old) (W.contents writer.new) }
{
    let Decoded::Note(note) = note_of(line, 6) else {
        return Ok(());
    };
    let map = map_of(line);
    if map.len() == 0 {
        return Ok(());
    }
    let pitch = note.pitch;
    if pitch.is_sized() {
        answer_mapped(writer, line, note, map)?;
    }
    Ok(())
}

// draws WAVE RATE PITCH FRAMES STYLE: how many.
fn replay_draws<W: Write>(writer: &mut W, line: &[u8]) -> io::Result<()>
    ensures { Grows (W.contents writer.old) (W.contents writer.new) }
{
    let Some(wave) = SeqWave::at(vectors::u32_field(line, 1)) else {
        return Ok(());
    };
    let rate = vectors::u32_field(line, 2);
    if rate < 8000 {
        return Ok(());
    }
    if rate > 192000 {
        return Ok(());
    }
    let frames = vectors::u32_field(line, 4) as usize;
    let Some(style) = KitStyle::at(vectors::u32_field(line, 5)) else {
        return Ok(());
    };
    let draws = draws::draw_count(wave, style, rate, vectors::f32_field(line, 3), frames);
    vectors::print_u64(writer, draws as u64)
}

fn replay_line<W: Write>(writer: &mut W, line: &[u8]) -> io::Result<()>
    ensures { Grows (W.contents writer.old) (W.contents writer.new) }
{
    vectors::print_text(writer, line)?;
    if vectors::is_named(line, b"groove") {
        replay_groove(writer, line)?;
    }
    if vectors::is_named(line, b"mapped") {
        replay_mapped(writer, line)?;
    }
    if vectors::is_named(line, b"draws") {
        replay_draws(writer, line)?;
    }
    vectors::print_text(writer, b"\n")
}

fn main(rt: HostRuntime) -> io::Result<()> {
    let mut text = vectors::buffer::<65536>();
    let n = vectors::read_full(&mut rt.stdin(), &mut text)?;
    let mut writer = BufWriter::new(rt.alloc(), rt.stdout())?;
    vectors::replay_lines(&mut writer, &text[..n], replay_line)?;
    writer.flush()
}
