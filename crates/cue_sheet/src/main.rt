// Reads a text score from standard input and writes its cue sheet to standard output, or, where the score
// is refused, the line R with the number.
#![tactic(auto)]

ghost use Rattle.std.specs.Prelude.{◌≡◌, ◌<◌, ◌≤◌, ℕ, length, take, IfOk, OnOk, OnErr};
ghost use Rattle.std.specs.Io.KnownBytes.{Appends, Consumes};
ghost use Rattle.programs.specs.Counts.{IsPrefixLen};
ghost use Rattle.programs.specs.Streams.{AppendsPart, ConsumesPart};
ghost use Rattle.cue_sheet.specs.Input.{written, shown, InputPrinted, ReadPrinted};

use programs::{Input, input_buffer, print_all, print_refusal, read_input};
use std::io;
use std::io::{Read, Write};

// As long as the longest sheet: 73 bytes for each of 256 notes, and four form feeds.
fn page_buffer() -> [u8; 18692]
    ensures { 18692 ≡ length result }
{
    [0u8; 18692]
}

// Puts the sheet of what was read, the first bytes of `score`, at the start of `page`.
fn print_read(score: &[u8], input: Input, page: &mut [u8]) -> Result<usize, u32>
    requires in_bounds { 65536 < length score.now }
    requires prefix_len { IsPrefixLen input.0 score.now }
    requires in_bounds_2 { 18692 ≤ length page.old }
    ensures read_printed { ReadPrinted score.now input.0 page.old result page.new }
    ensures result_in_bounds { written result ≤ length page.new }
{
    let read = input.count();
    text_sheet::sheet_text(&score[..read], page)
}

// Reads the input into `score` and puts its sheet at the start of `page`, which has room for any. A read that
// fails ends it with that read's error.
// The programs share `read_input`; what is left here is one call, and a contract that speaks of this program alone.
fn print_input<R: Read>(
    input: &mut R,
    score: &mut [u8],
    page: &mut [u8],
) -> io::Result<Result<usize, u32>>
    requires in_bounds { 65536 < length score.old }
    requires in_bounds_2 { 18692 ≤ length page.old }
    ensures input_printed { IfOk result (λ said. InputPrinted score.new page.old said page.new) }
    ensures of_input { IfOk result (λ said. (read : ℕ) × Consumes (R.remaining input.old) (R.remaining input.new) (take read score.new)
        × ReadPrinted score.new read page.old said page.new) }
    ensures result_in_bounds { IfOk result (λ said. written said ≤ length page.new) }
    ensures part { OnErr result (ConsumesPart (R.remaining input.old) (R.remaining input.new) score.new) }
    ensures page_left { OnErr result (page.new ≡ page.old) }
{
    let read = read_input(input, score)?;
    Ok(print_read(score, read, page))
}

// The sheet, or the line of what refuses the score. A write that fails ends it with that write's error.
fn answer<W: Write>(file: &mut W, said: Result<usize, u32>, page: &[u8]) -> io::Result<()>
    requires { written said ≤ length page.now }
    ensures all { OnOk result (Appends (W.contents file.old) (W.contents file.new) (shown said page.now)) }
    ensures part { OnErr result (AppendsPart (W.contents file.old) (W.contents file.new) (shown said page.now)) }
{
    match said {
        Ok(length) => print_all(file, &page[..length]),
        Err(number) => print_refusal(file, number),
    }
}

fn main(rt: HostRuntime) -> io::Result<()> {
    let mut score = input_buffer();
    let mut page = page_buffer();
    let said = print_input(&mut rt.stdin(), &mut score, &mut page)?;
    answer(&mut rt.stdout(), said, &page)
}
