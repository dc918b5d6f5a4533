// From line to line of a text, and from case to case.
ghost use Rattle.std.specs.Prelude.{◌<◌, ⊤, MatchOption, length};
ghost use Rattle.programs.specs.Streams.{Grows};

use crate::fields::length_field;
use std::io;
use std::io::Write;

// The bytes before the first newline, and those after it.
fn first_line(text: &[u8]) -> Option<(&[u8], &[u8])>
    ensures { MatchOption result ⊤ (λ parts. length parts.1.now < length text.now) }
{
    let end = text.iter().position(|b| *b == b'\n')?;
    Some((&text[..end], &text[end + 1..]))
}

// Calls `each` on the lines of `text` in order, without their newlines. An `each` that fails ends it.
pub fn replay_lines<W: Write, F: FnMut(&mut W, &[u8]) -> io::Result<()>>(
    writer: &mut W,
    text: &[u8],
    mut each: F,
) -> io::Result<()>
    requires callable { F.IsAlwaysCallable each }
    requires grows { (f : F) (w : _) (line : _) (r : _) (v : _) (g : F) → F.step f w line r v g → Grows (W.contents w.now) (W.contents v.now) }
    ensures { Grows (W.contents writer.old) (W.contents writer.new) }
{
    let mut rest = text;
    while let Some((line, after)) = first_line(rest) {
        each(writer, line)?;
        rest = after;
    }
    if rest.is_empty() {
        return Ok(());
    }
    each(writer, rest)
}

// Calls `each` on the cases of `input` in order: a line without its newline, and the bytes after it, as
// many as the line's field 1 says or as are left. An `each` that fails ends it.
pub fn replay_cases<W: Write, F: FnMut(&mut W, &[u8], &[u8]) -> io::Result<()>>(
    writer: &mut W,
    input: &[u8],
    mut each: F,
) -> io::Result<()>
    requires callable { F.IsAlwaysCallable each }
    requires grows { (f : F) (w : _) (line : _) (bytes : _) (r : _) (v : _) (g : F) → F.step f w line bytes r v g → Grows (W.contents w.now) (W.contents v.now) }
    ensures { Grows (W.contents writer.old) (W.contents writer.new) }
{
    let mut rest = input;
    while let Some((line, after)) = first_line(rest) {
        let count = length_field(line, 1, after.len());
        each(writer, line, &after[..count])?;
        rest = &after[count..];
    }
    Ok(())
}
