// What the programs share: their input, and what they write.
#![tactic(auto)]

ghost use Rattle.std.specs.Prelude.{◌≡◌, ◌<◌, length, take, IfOk, OnOk, OnErr};
ghost use Rattle.programs.specs.Counts.{IsPrefixLen};
ghost use Rattle.programs.specs.Streams.{ConsumesPart, AppendsPart};
ghost use Rattle.text_listing.specs.Lines.{printed_r};
ghost use Rattle.std.specs.Io.KnownBytes.{Appends, Consumes, IsAtEnd};

use std::io;
use std::io::{Error, ErrorKind, Read, Write};
use text_listing::put_refusal;

// One byte more than a text score or a WAVE file may have, so that a longer input shows. The contract says only how long
// the buffer is, since nothing that it first holds is ever read.
pub fn input_buffer() -> [u8; 65537]
    ensures { 65537 ≡ length result }
{
    [0u8; 65537]
}

// How many bytes were read. Nothing but `read_input` makes one, so that no program lists another count than it read.
#[derive(Clone, Copy)]
pub struct Input(usize);

impl Input {
    pub fn count(self) -> usize
        ensures { result ≡ self.0 }
    {
        self.0
    }
}

// Reads until `buffer` is full or the input ends, and gives how many bytes it put at the start of `buffer`.
// A read that fails ends it with that read's error; what was read before stands at the start of `buffer`.
pub fn read_full<R: Read>(input: &mut R, buffer: &mut [u8]) -> io::Result<usize>
    ensures count { IfOk result (λ n. IsPrefixLen n buffer.new) }
    ensures bytes { IfOk result (λ n. Consumes (R.remaining input.old) (R.remaining input.new) (take n buffer.new)) }
    ensures end { IfOk result (λ n. n < length buffer.new → IsAtEnd (R.remaining input.new)) }
    ensures part { OnErr result (ConsumesPart (R.remaining input.old) (R.remaining input.new) buffer.new) }
{
    // The plainer form, `read_exact`, fails where the input is shorter than the buffer.
    let mut done = 0;
    while done < buffer.len() {
        let n = input.read(&mut buffer[done..])?;
        if n == 0 {
            break;
        }
        done += n;
    }
    Ok(done)
}

// `read_full`, whose count is an `Input`. The clauses on bytes speak of a reader whose bytes are known; no contract of the
// library says which bytes standard input holds.
pub fn read_input<R: Read>(input: &mut R, buffer: &mut [u8]) -> io::Result<Input>
    ensures count { IfOk result (λ read. IsPrefixLen read.0 buffer.new) }
    ensures bytes { IfOk result (λ read. Consumes (R.remaining input.old) (R.remaining input.new) (take read.0 buffer.new)) }
    ensures end { IfOk result (λ read. read.0 < length buffer.new → IsAtEnd (R.remaining input.new)) }
    ensures part { OnErr result (ConsumesPart (R.remaining input.old) (R.remaining input.new) buffer.new) }
{
    let read = read_full(input, buffer)?;
    Ok(Input(read))
}

// Writes all of `bytes` to an open file. A write that fails, or takes no byte, ends it with an error; the first bytes may
// have been written.
pub fn print_all<W: Write>(file: &mut W, bytes: &[u8]) -> io::Result<()>
    ensures all { OnOk result (Appends (W.contents file.old) (W.contents file.new) bytes.now) }
    ensures part { OnErr result (AppendsPart (W.contents file.old) (W.contents file.new) bytes.now) }
{
    // `write_all` would do, but its contract doesn't say what `part` does: what an error leaves.
    let mut done = 0;
    while done < bytes.len() {
        let taken = file.write(&bytes[done..])?;
        if taken == 0 {
            return Err(Error::from(ErrorKind::WriteZero));
        }
        done += taken;
    }
    Ok(())
}

// Writes R, a tab, the number and a newline to an open file. A write that fails ends it with that write's error.
pub fn print_refusal<W: Write>(file: &mut W, number: u32) -> io::Result<()>
    ensures all { OnOk result (Appends (W.contents file.old) (W.contents file.new) (printed_r number)) }
    ensures part { OnErr result (AppendsPart (W.contents file.old) (W.contents file.new) (printed_r number)) }
{
    let mut line = [0u8; 13];
    let length = put_refusal(&mut line, number);
    print_all(file, &line[..length])
}
