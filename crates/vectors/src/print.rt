// Texts, and numbers each after a space, on what a program writes to.
ghost use Rattle.std.specs.Prelude.{OnOk, OnErr};
ghost use Rattle.std.specs.Io.KnownBytes.{Appends};
ghost use Rattle.programs.specs.Streams.{AppendsPart, Grows};
ghost use Rattle.vectors.specs.Numbers.{spaced};

use crate::patterns::{f32_bits, f64_bits};
use programs::print_all;
use std::io;
use std::io::Write;
use text_listing::{put_hex_8, put_hex_16};

pub fn print_text<W: Write>(writer: &mut W, text: &[u8]) -> io::Result<()>
    ensures all { OnOk result (Appends (W.contents writer.old) (W.contents writer.new) text.now) }
    ensures part { OnErr result (AppendsPart (W.contents writer.old) (W.contents writer.new) text.now) }
    ensures grows { Grows (W.contents writer.old) (W.contents writer.new) }
{
    print_all(writer, text)
}

// Two functions, since `text_listing` has one for each width, and a buffer of `WIDTH + 1` bytes is no type.
fn print_8<W: Write>(writer: &mut W, n: u64) -> io::Result<()>
    ensures all { OnOk result (Appends (W.contents writer.old) (W.contents writer.new) (spaced 8 n)) }
    ensures part { OnErr result (AppendsPart (W.contents writer.old) (W.contents writer.new) (spaced 8 n)) }
    ensures grows { Grows (W.contents writer.old) (W.contents writer.new) }
{
    let mut text = [b' '; 9];
    put_hex_8(&mut text, 1, n);
    print_text(writer, &text)
}

fn print_16<W: Write>(writer: &mut W, n: u64) -> io::Result<()>
    ensures all { OnOk result (Appends (W.contents writer.old) (W.contents writer.new) (spaced 16 n)) }
    ensures part { OnErr result (AppendsPart (W.contents writer.old) (W.contents writer.new) (spaced 16 n)) }
    ensures grows { Grows (W.contents writer.old) (W.contents writer.new) }
{
    let mut text = [b' '; 17];
    put_hex_16(&mut text, 1, n);
    print_text(writer, &text)
}

pub fn print_f32<W: Write>(writer: &mut W, x: f32) -> io::Result<()>
    ensures { Grows (W.contents writer.old) (W.contents writer.new) }
{
    print_8(writer, f32_bits(x) as u64)
}

pub fn print_f64<W: Write>(writer: &mut W, x: f64) -> io::Result<()>
    ensures { Grows (W.contents writer.old) (W.contents writer.new) }
{
    print_16(writer, f64_bits(x))
}

pub fn print_u64<W: Write>(writer: &mut W, n: u64) -> io::Result<()>
    ensures all { OnOk result (Appends (W.contents writer.old) (W.contents writer.new) (spaced 16 n)) }
    ensures part { OnErr result (AppendsPart (W.contents writer.old) (W.contents writer.new) (spaced 16 n)) }
    ensures grows { Grows (W.contents writer.old) (W.contents writer.new) }
{
    print_16(writer, n)
}

pub fn print_i64<W: Write>(writer: &mut W, n: i64) -> io::Result<()>
    ensures { Grows (W.contents writer.old) (W.contents writer.new) }
{
    print_16(writer, n.cast_unsigned())
}
