// Replays calls on WAVE files whose answers are known. Standard input is a run of cases: a line
//   read LENGTH ROOM NAME, or
//   write LENGTH ROOM RATE NAME
// and then as many bytes as LENGTH says: a file, or samples of four bytes each. ROOM is how many values
// or bytes are lent, each a point before the call. The line is written again with the call's answer;
// then, of a read, the rate and the samples lent, and of a write the bytes lent.
#![tactic(auto)]

ghost use Rattle.std.specs.Prelude.{◌≤◌, ◌<◌, length};
ghost use Rattle.programs.specs.Streams.{Grows};

use std::io;
use std::io::{BufWriter, Write};
use wave_file::u32_at;

// The most samples of a case, and the most bytes that are lent for its file.
const MOST_SAMPLES: usize = 32;

const MOST_BYTES: usize = 256;

// What lent places hold before a call.
const POINTS: u32 = 0x2e2e_2e2e;

// The byte of a hexadecimal digit.
fn hex_digit(v: u8) -> u8
    requires { v < 16 }
{
    if v < 10 { b'0' + v } else { b'a' - 10 + v }
}

fn print_byte<W: Write>(writer: &mut W, b: u8) -> io::Result<()>
    ensures { Grows (W.contents writer.old) (W.contents writer.new) }
{
    vectors::print_text(writer, &[b' ', hex_digit(b / 16), hex_digit(b % 16)])
}

fn print_samples<W: Write>(writer: &mut W, samples: &[u32]) -> io::Result<()>
    ensures { Grows (W.contents writer.old) (W.contents writer.new) }
{
    for sample in samples {
        vectors::print_u64(writer, u64::from(*sample))?;
    }
    Ok(())
}

fn print_bytes<W: Write>(writer: &mut W, bytes: &[u8]) -> io::Result<()>
    ensures { Grows (W.contents writer.old) (W.contents writer.new) }
{
    for byte in bytes {
        print_byte(writer, *byte)?;
    }
    Ok(())
}

fn read_call<W: Write>(
    writer: &mut W,
    line: &[u8],
    file: &[u8],
    samples: &mut [u32],
) -> io::Result<()>
    ensures { Grows (W.contents writer.old) (W.contents writer.new) }
{
    let mut rate = POINTS;
    let answer = tono_wave::read(file, &mut rate, samples);
    vectors::print_text(writer, line)?;
    vectors::print_i64(writer, answer)?;
    vectors::print_u64(writer, rate as u64)?;
    print_samples(writer, samples)?;
    vectors::print_text(writer, b"\n")
}

fn write_call<W: Write>(
    writer: &mut W,
    line: &[u8],
    samples: &[u32],
    file: &mut [u8],
) -> io::Result<()>
    ensures { Grows (W.contents writer.old) (W.contents writer.new) }
{
    let rate = vectors::u32_field(line, 3);
    let answer = tono_wave::write(rate, samples, file);
    vectors::print_text(writer, line)?;
    vectors::print_i64(writer, answer)?;
    print_bytes(writer, file)?;
    vectors::print_text(writer, b"\n")
}

// The numbers in whole groups of four bytes, at the start of `samples`; how many there are.
fn samples_in(bytes: &[u8], samples: &mut [u32]) -> usize
    ensures { result ≤ length samples.old }
{
    let count = samples.len().min(bytes.len() / 4);
    for i in 0..count {
        samples[i] = u32_at(bytes, 4 * i);
    }
    count
}

fn read_case<W: Write>(writer: &mut W, line: &[u8], file: &[u8]) -> io::Result<()>
    ensures { Grows (W.contents writer.old) (W.contents writer.new) }
{
    let room = vectors::length_field(line, 2, MOST_SAMPLES);
    let mut samples = [POINTS; 32];
    read_call(writer, line, file, &mut samples[..room])
}

fn write_case<W: Write>(writer: &mut W, line: &[u8], samples: &[u32]) -> io::Result<()>
    ensures { Grows (W.contents writer.old) (W.contents writer.new) }
{
    let room = vectors::length_field(line, 2, MOST_BYTES);
    let mut file = [b'.'; 256];
    write_call(writer, line, samples, &mut file[..room])
}

fn write_bytes<W: Write>(writer: &mut W, line: &[u8], bytes: &[u8]) -> io::Result<()>
    ensures { Grows (W.contents writer.old) (W.contents writer.new) }
{
    let mut samples = [0; 32];
    let count = samples_in(bytes, &mut samples);
    write_case(writer, line, &samples[..count])
}

fn replay_case<W: Write>(writer: &mut W, line: &[u8], bytes: &[u8]) -> io::Result<()>
    ensures { Grows (W.contents writer.old) (W.contents writer.new) }
{
    if vectors::is_named(line, b"read") {
        read_case(writer, line, bytes)
    } else {
        write_bytes(writer, line, bytes)
    }
}

fn main(rt: HostRuntime) -> io::Result<()> {
    let mut input = vectors::buffer::<524288>();
    let n = vectors::read_full(&mut rt.stdin(), &mut input)?;
    let mut writer = BufWriter::new(rt.alloc(), rt.stdout())?;
    vectors::replay_cases(&mut writer, &input[..n], replay_case)?;
    writer.flush()
}
