// Replays the float helpers on a list of cases at their boundaries. A line of standard input names
// a helper and gives its arguments; the answer is appended to it.
#![tactic(auto)]

ghost use Rattle.programs.specs.Streams.{Grows};

use std::io;
use std::io::{BufWriter, Write};

// Helpers of one f32 that answer an f32.
fn answer_f32<W: Write>(writer: &mut W, line: &[u8]) -> io::Result<()>
    ensures { Grows (W.contents writer.old) (W.contents writer.new) }
{
    let x = vectors::f32_field(line, 1);
    vectors::answer(writer, line, b"floor", float::floor_f32(x))?;
    vectors::answer(writer, line, b"trunc", float::trunc_f32(x))?;
    vectors::answer(writer, line, b"round", float::round_f32(x))?;
    vectors::answer(writer, line, b"fract", float::fract_f32(x))?;
    vectors::answer(writer, line, b"abs", float::abs_f32(x))?;
    vectors::answer(writer, line, b"signum", float::signum_f32(x))?;
    vectors::answer(writer, line, b"sqrt", rounding::sqrt_f32(x))?;
    vectors::answer(writer, line, b"bits", x)
}

// Helpers of one f64 that answer an f64.
fn answer_f64<W: Write>(writer: &mut W, line: &[u8]) -> io::Result<()>
    ensures { Grows (W.contents writer.old) (W.contents writer.new) }
{
    let x = vectors::f64_field(line, 1);
    vectors::answer(writer, line, b"floor64", float::floor_f64(x))?;
    vectors::answer(writer, line, b"trunc64", float::trunc_f64(x))?;
    vectors::answer(writer, line, b"round64", float::round_f64(x))
}

// Changes of type.
fn answer_cast<W: Write>(writer: &mut W, line: &[u8]) -> io::Result<()>
    ensures { Grows (W.contents writer.old) (W.contents writer.new) }
{
    let x = vectors::f32_field(line, 1);
    let y = vectors::f64_field(line, 1);
    vectors::answer(writer, line, b"widen", rounding::widen(x))?;
    vectors::answer(writer, line, b"narrow", rounding::narrow(y))?;
    vectors::answer(writer, line, b"usize", float::f32_to_usize(x) as u64)?;
    vectors::answer(writer, line, b"i32", i64::from(float::f32_to_i32(x)))?;
    vectors::answer(writer, line, b"usize64", float::f64_to_usize(y) as u64)?;
    vectors::answer(writer, line, b"i64", float::f64_to_i64(y))
}

fn answer_rem<W: Write>(writer: &mut W, line: &[u8]) -> io::Result<()>
    ensures { Grows (W.contents writer.old) (W.contents writer.new) }
{
    let x = vectors::f32_field(line, 1);
    let y = vectors::f32_field(line, 2);
    vectors::answer(writer, line, b"rem", remainder::rem_f32(x, y))
}

// Helpers that pick one of their arguments.
fn answer_order<W: Write>(writer: &mut W, line: &[u8]) -> io::Result<()>
    ensures { Grows (W.contents writer.old) (W.contents writer.new) }
{
    let a = vectors::f32_field(line, 1);
    let b = vectors::f32_field(line, 2);
    let c = vectors::f32_field(line, 3);
    vectors::answer(writer, line, b"max", float::max_f32(a, b))?;
    vectors::answer(writer, line, b"min", float::min_f32(a, b))?;
    vectors::answer(writer, line, b"clamp", float::clamp_f32(a, b, c))?;
    let x = vectors::f64_field(line, 1);
    vectors::answer(
        writer,
        line,
        b"max64",
        float::max_f64(x, vectors::f64_field(line, 2)),
    )
}

// A name that no helper has gets no answer.
fn replay_line<W: Write>(writer: &mut W, line: &[u8]) -> io::Result<()>
    ensures { Grows (W.contents writer.old) (W.contents writer.new) }
{
    vectors::print_text(writer, line)?;
    answer_f32(writer, line)?;
    answer_f64(writer, line)?;
    answer_cast(writer, line)?;
    answer_rem(writer, line)?;
    answer_order(writer, line)?;
    vectors::print_text(writer, b"\n")
}

fn main(rt: HostRuntime) -> io::Result<()> {
    let mut text = vectors::buffer::<65536>();
    let n = vectors::read_full(&mut rt.stdin(), &mut text)?;
    let mut writer = BufWriter::new(rt.alloc(), rt.stdout())?;
    vectors::replay_lines(&mut writer, &text[..n], replay_line)?;
    writer.flush()
}
