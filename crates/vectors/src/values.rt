// Numbers of any type that a program writes: those that answer a line of a name, and rows of them.
ghost use Rattle.programs.specs.Streams.{Grows};

use crate::fields::is_named;
use crate::print::{print_f32, print_f64, print_i64, print_u64};
use std::io;
use std::io::Write;

// A number that is written after a space.
pub trait Value: Copy + Drop {
    fn print<W: Write>(self, writer: &mut W) -> io::Result<()>
        ensures { Grows (W.contents writer.old) (W.contents writer.new) };
}

impl Value for f32 {
    fn print<W: Write>(self, writer: &mut W) -> io::Result<()> {
        print_f32(writer, self)
    }
}

impl Value for f64 {
    fn print<W: Write>(self, writer: &mut W) -> io::Result<()> {
        print_f64(writer, self)
    }
}

impl Value for u64 {
    fn print<W: Write>(self, writer: &mut W) -> io::Result<()> {
        print_u64(writer, self)
    }
}

impl Value for i64 {
    fn print<W: Write>(self, writer: &mut W) -> io::Result<()> {
        print_i64(writer, self)
    }
}

// The answer to a line of the name. A line of another name gets none.
pub fn answer<W: Write, X: Value>(writer: &mut W, line: &[u8], name: &[u8], x: X) -> io::Result<()>
    ensures { Grows (W.contents writer.old) (W.contents writer.new) }
{
    if is_named(line, name) {
        x.print(writer)?;
    }
    Ok(())
}

// All of `xs` in order.
pub fn print_values<W: Write, X: Value>(writer: &mut W, xs: &[X]) -> io::Result<()>
    ensures { Grows (W.contents writer.old) (W.contents writer.new) }
{
    for x in xs {
        x.print(writer)?;
    }
    Ok(())
}
