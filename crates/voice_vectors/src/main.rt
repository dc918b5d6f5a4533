// Replays notes of every wave whose answers the original gave. A line of standard input names a
// wave and gives style, rate, gain, state, frames, the pitches and duties of the first frames, of which the
// last goes on, the knobs and the drawbars; the samples and the state after them are appended.
#![tactic(auto)]

ghost use Rattle.std.specs.Prelude.{◌≤◌, ◌<◌};
ghost use Rattle.programs.specs.Streams.{Grows};

use rng::Rng;
use std::io;
use std::io::{BufWriter, Write};

// `count` values from field `from` on, the last of them in the places after it.
fn values(line: &[u8], from: usize, count: usize) -> [f32; 128]
    requires { (0 < count) × (count ≤ 128) × (from ≤ 1024) }
{
    let mut out = [0.0f32; 128];
    for (i, x) in out.iter_mut().enumerate() {
        *x = vectors::f32_field(line, from + i.min(count - 1));
    }
    out
}

// Fills `out` with the line's note; the generator after it. Where the wave or the style is none, nothing changes.
fn sound(
    line: &[u8],
    set: &[f32],
    bars: &[f32],
    pitch: &[f32],
    duty: &[f32],
    out: &mut [f32],
) -> Rng {
    let rng = Rng::new(vectors::u64_field(line, 5));
    let wave = vectors::u32_field(line, 1);
    let style = vectors::u32_field(line, 2);
    let Some(voice) = raw_knobs::voice_at(wave, style, set, bars) else {
        return rng;
    };
    let rate = vectors::u32_field(line, 3);
    let gain = vectors::f32_field(line, 4);
    let mut string = [0.0f32; 9600];
    let answer = note::seq_note_signal(rng, rate, voice, gain, pitch, duty, out, &mut string);
    answer.rng
}

fn play<W: Write>(writer: &mut W, line: &[u8], frames: usize, count: usize) -> io::Result<()>
    requires { (0 < count) × (count ≤ 128) × (frames ≤ 128) }
    ensures { Grows (W.contents writer.old) (W.contents writer.new) }
{
    let pitch = values(line, 8, count);
    let duty = values(line, 8 + count, count);
    let set = vectors::numbers::<f32, 22>(line, 8 + 2 * count);
    let bars = vectors::numbers::<f32, 10>(line, 30 + 2 * count);
    let mut out = [0.0f32; 128];
    let after = sound(
        line,
        &set,
        &bars,
        &pitch[..frames],
        &duty[..frames],
        &mut out[..frames],
    );
    vectors::print_values(writer, &out[..frames])?;
    vectors::print_u64(writer, after.state())
}

// A line whose numbers are out of range gets no answer.
fn replay_line<W: Write>(writer: &mut W, line: &[u8]) -> io::Result<()>
    ensures { Grows (W.contents writer.old) (W.contents writer.new) }
{
    vectors::print_text(writer, line)?;
    let frames = vectors::u64_field(line, 6);
    let count = vectors::u64_field(line, 7);
    if frames <= 128 && 0 < count && count <= 128 {
        play(writer, line, frames as usize, count as usize)?;
    }
    vectors::print_text(writer, b"\n")
}

fn main(rt: HostRuntime) -> io::Result<()> {
    let mut text = vectors::buffer::<524288>();
    let n = vectors::read_full(&mut rt.stdin(), &mut text)?;
    let mut writer = BufWriter::new(rt.alloc(), rt.stdout())?;
    vectors::replay_lines(&mut writer, &text[..n], replay_line)?;
    writer.flush()
}
