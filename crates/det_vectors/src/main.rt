// Replays the kernels on a list of cases whose answers the original's det.rs gave. A line of
// standard input names a kernel and gives its arguments; the answer is appended to it.
#![tactic(auto)]

ghost use Rattle.programs.specs.Streams.{Grows};

use std::io;
use std::io::{BufWriter, Write};

// Kernels of one f64.
fn answer_f64<W: Write>(writer: &mut W, line: &[u8]) -> io::Result<()>
    ensures { Grows (W.contents writer.old) (W.contents writer.new) }
{
    let x = vectors::f64_field(line, 1);
    vectors::answer(writer, line, b"sin", trig::sin(x))?;
    vectors::answer(writer, line, b"cos", trig::cos(x))?;
    vectors::answer(writer, line, b"exp", det::exp(x))?;
    vectors::answer(writer, line, b"ln", det::ln(x))?;
    vectors::answer(writer, line, b"tanh", det::tanh(x))
}

// Their f32 wrappers.
fn answer_f32<W: Write>(writer: &mut W, line: &[u8]) -> io::Result<()>
    ensures { Grows (W.contents writer.old) (W.contents writer.new) }
{
    let x = vectors::f32_field(line, 1);
    vectors::answer(writer, line, b"sinf", trig::sinf(x))?;
    vectors::answer(writer, line, b"cosf", trig::cosf(x))?;
    vectors::answer(writer, line, b"expf", det::expf(x))?;
    vectors::answer(writer, line, b"lnf", det::lnf(x))?;
    vectors::answer(writer, line, b"tanhf", det::tanhf(x))
}

// The power, of two arguments.
fn answer_power<W: Write>(writer: &mut W, line: &[u8]) -> io::Result<()>
    ensures { Grows (W.contents writer.old) (W.contents writer.new) }
{
    let x = vectors::f64_field(line, 1);
    let y = vectors::f64_field(line, 2);
    vectors::answer(writer, line, b"powf", det::powf(x, y))?;
    let x = vectors::f32_field(line, 1);
    let y = vectors::f32_field(line, 2);
    vectors::answer(writer, line, b"powff", det::powff(x, y))
}

// A name that no kernel has gets no answer.
fn replay_line<W: Write>(writer: &mut W, line: &[u8]) -> io::Result<()>
    ensures { Grows (W.contents writer.old) (W.contents writer.new) }
{
    vectors::print_text(writer, line)?;
    answer_f64(writer, line)?;
    answer_f32(writer, line)?;
    answer_power(writer, line)?;
    vectors::print_text(writer, b"\n")
}

fn main(rt: HostRuntime) -> io::Result<()> {
    let mut text = vectors::buffer::<65536>();
    let n = vectors::read_full(&mut rt.stdin(), &mut text)?;
    let mut writer = BufWriter::new(rt.alloc(), rt.stdout())?;
    vectors::replay_lines(&mut writer, &text[..n], replay_line)?;
    writer.flush()
}
