// Reads a text score from standard input and writes the WAVE file of its frames to standard output. Of
// a score that is refused it writes nothing there, and the line R with the number to standard error.
#![tactic(auto)]

ghost use Rattle.std.specs.Prelude.{◌≡◌, ◌<◌, ◌≤◌, ℕ, length, take, IfOk, OnOk, OnErr};
ghost use Rattle.std.specs.Io.KnownBytes.{Appends, Consumes};
ghost use Rattle.programs.specs.Counts.{IsPrefixLen};
ghost use Rattle.programs.specs.Streams.{AppendsPart, ConsumesPart};
ghost use Rattle.wave.specs.Input.{written, to_out, to_err, InputFiled, ReadFiled};

use programs::{Input, input_buffer, print_all, print_refusal, read_input};
use std::io;
use std::io::{Read, Write};

// As long as the longest file: 58 bytes, and four for each of 2,048 frames.
fn file_buffer() -> [u8; 8250]
    ensures { 8250 ≡ length result }
{
    [0u8; 8250]
}

// Puts the file of what was read, the first bytes of `score`, at the start of `file`, which has room for any.
fn file_read(score: &[u8], input: Input, file: &mut [u8]) -> Result<usize, u32>
    requires in_bounds { 65536 < length score.now }
    requires prefix_len { IsPrefixLen input.0 score.now }
    requires in_bounds_2 { 8250 ≤ length file.old }
    ensures read_filed { ReadFiled score.now input.0 file.old result file.new }
    ensures result_in_bounds { written result ≤ length file.new }
{
    let read = input.count();
    text_wave::wave_text(&score[..read], file)
}

// Reads the input into `score` and puts its file at the start of `file`, which has room for any. A read that
// fails ends it with that read's error.
// The programs share `read_input`; what is left here is one call, and a contract that speaks of this program alone.
fn file_input<R: Read>(
    input: &mut R,
    score: &mut [u8],
    file: &mut [u8],
) -> io::Result<Result<usize, u32>>
    requires in_bounds { 65536 < length score.old }
    requires in_bounds_2 { 8250 ≤ length file.old }
    ensures input_filed { IfOk result (λ said. InputFiled score.new file.old said file.new) }
    ensures of_input { IfOk result (λ said. (read : ℕ) × Consumes (R.remaining input.old) (R.remaining input.new) (take read score.new)
        × ReadFiled score.new read file.old said file.new) }
    ensures result_in_bounds { IfOk result (λ said. written said ≤ length file.new) }
    ensures part { OnErr result (ConsumesPart (R.remaining input.old) (R.remaining input.new) score.new) }
    ensures file_left { OnErr result (file.new ≡ file.old) }
{
    let read = read_input(input, score)?;
    Ok(file_read(score, read, file))
}

// A file goes to `out`, the line of a refusal to `err`. A write that fails ends it with that write's error.
fn answer<O: Write, E: Write>(
    out: &mut O,
    err: &mut E,
    said: Result<usize, u32>,
    file: &[u8],
) -> io::Result<()>
    requires { written said ≤ length file.now }
    ensures file_out { OnOk result (Appends (O.contents out.old) (O.contents out.new) (to_out said file.now)) }
    ensures line_out { OnOk result (Appends (E.contents err.old) (E.contents err.new) (to_err said file.now)) }
    ensures file_part { OnErr result (AppendsPart (O.contents out.old) (O.contents out.new) (to_out said file.now)) }
    ensures line_part { OnErr result (AppendsPart (E.contents err.old) (E.contents err.new) (to_err said file.now)) }
{
    match said {
        Ok(length) => print_all(out, &file[..length]),
        Err(number) => print_refusal(err, number),
    }
}

fn main(rt: HostRuntime) -> io::Result<()> {
    let mut score = input_buffer();
    let mut file = file_buffer();
    let said = file_input(&mut rt.stdin(), &mut score, &mut file)?;
    answer(&mut rt.stdout(), &mut rt.stderr(), said, &file)
}
