// Reads a WAVE file from standard input and prints a line for each sample: F, its index and its own
// bits. Of a file that is refused it prints one line, R and the number.
#![tactic(auto)]

ghost use Rattle.std.specs.Prelude.{◌≡◌, ◌≤◌, ◌<◌, ℕ, length, take, IfOk, OnErr};
ghost use Rattle.std.specs.Io.KnownBytes.{Consumes};
ghost use Rattle.programs.specs.Counts.{IsPrefixLen};
ghost use Rattle.text_listing.specs.Printed.{Printed};
ghost use Rattle.programs.specs.Streams.{ConsumesPart};
ghost use Rattle.wave_frames.specs.Input.{file_lines, InputShown, ReadShown};

use programs::{Input, input_buffer, read_input};
use std::io;
use std::io::{Read, Write};
use text_listing::{put_lines, put_refusal};

fn samples_buffer() -> [u32; 2048]
    ensures { 2048 ≡ length result }
{
    [0u32; 2048]
}

// A line of a sample has at most 16 bytes.
fn page_buffer() -> [u8; 32768]
    ensures { 32768 ≡ length result }
{
    [0u8; 32768]
}

// Puts the lines of `file` at the start of `page`, and gives their length.
fn put_file_lines(file: &[u8], samples: &mut [u32], page: &mut [u8]) -> usize
    requires value { 2048 ≡ length samples.old }
    requires in_bounds { 32768 ≤ length page.old }
    ensures { Printed (file_lines file.now) 0 page.old result page.new }
{
    if file.len() > 65536 {
        return put_refusal(page, 23);
    }
    match wave_read::read_wave(file, samples) {
        Ok(found) => put_lines(page, &samples[..found.count]),
        Err(refusal) => put_refusal(page, refusal.number()),
    }
}

// Puts the lines of what was read, the first bytes of `file`, at the start of `page`; the answer is how many
// bytes of the page are to be written.
fn show_read(file: &[u8], input: Input, samples: &mut [u32], page: &mut [u8]) -> usize
    requires in_bounds { 65536 < length file.now }
    requires prefix_len { IsPrefixLen input.0 file.now }
    requires value { 2048 ≡ length samples.old }
    requires in_bounds_2 { 32768 ≤ length page.old }
    ensures read_shown { ReadShown file.now input.0 page.old result page.new }
    ensures prefix_len_2 { IsPrefixLen result page.new }
{
    let read = input.count();
    put_file_lines(&file[..read], samples, page)
}

// Reads the input into `file` and puts its lines at the start of `page`; the answer is how many bytes
// of the page are to be written. A read that fails ends it with that read's error.
// The programs share `read_input`; what is left here is one call, and a contract that speaks of this program alone.
fn show_input<R: Read>(
    input: &mut R,
    file: &mut [u8],
    samples: &mut [u32],
    page: &mut [u8],
) -> io::Result<usize>
    requires in_bounds { 65536 < length file.old }
    requires value { 2048 ≡ length samples.old }
    requires in_bounds_2 { 32768 ≤ length page.old }
    ensures input_shown { IfOk result (λ written. InputShown file.new page.old written page.new) }
    ensures of_input { IfOk result (λ written. (read : ℕ) × Consumes (R.remaining input.old) (R.remaining input.new) (take read file.new)
        × ReadShown file.new read page.old written page.new) }
    ensures prefix_len { IfOk result (λ written. IsPrefixLen written page.new) }
    ensures part { OnErr result (ConsumesPart (R.remaining input.old) (R.remaining input.new) file.new) }
    ensures page_left { OnErr result ((page.new ≡ page.old) × (samples.new ≡ samples.old)) }
{
    let read = read_input(input, file)?;
    Ok(show_read(file, read, samples, page))
}

fn main(rt: HostRuntime) -> io::Result<()> {
    let mut file = input_buffer();
    let mut samples = samples_buffer();
    let mut page = page_buffer();
    let written = show_input(&mut rt.stdin(), &mut file, &mut samples, &mut page)?;
    rt.stdout().write_all(&page[..written])
}
