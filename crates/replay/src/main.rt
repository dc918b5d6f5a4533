// Replays text scores whose listings the original gave. Standard input is a run of cases: a line
//   text LENGTH REPLY NAME
// and then the text score's bytes, as many as LENGTH says; the reply has REPLY bytes, each a point
// before the call. The line is written again, with the call's answer and a hash of the whole reply.
// After a line that starts with `show` the reply follows, and a newline.
//
// `compare replay-vectors` writes stdin and stdout, by the original's code and no listing of ours
// (compare/src/text_cases.rs has the cases). Each wave has among them a short score, one of 2,048
// frames at 48,000 a second through a chord, and one note held over 2,048 frames at 8,000 a second.
#![tactic(auto)]

ghost use Rattle.programs.specs.Streams.{Grows};

use std::io;
use std::io::{BufWriter, Write};

// FNV-1a of 64 bits: where it starts, and what it multiplies by.
const FNV_OFFSET: u64 = 0xcbf2_9ce4_8422_2325;

const FNV_PRIME: u64 = 0x0000_0100_0000_01b3;

// The longest reply. No listing has more than 32,808 bytes.
const MOST_REPLY: usize = 33024;

fn hash(bytes: &[u8]) -> u64 {
    bytes.iter().fold(
        FNV_OFFSET,
        |h, b| (h ^ u64::from(*b)).wrapping_mul(FNV_PRIME),
    )
}

fn print_answer<W: Write>(writer: &mut W, line: &[u8], answer: i64, reply: &[u8]) -> io::Result<()>
    ensures { Grows (W.contents writer.old) (W.contents writer.new) }
{
    vectors::print_text(writer, line)?;
    vectors::print_i64(writer, answer)?;
    vectors::print_u64(writer, hash(reply))?;
    vectors::print_text(writer, b"\n")?;
    if vectors::is_named(line, b"show") {
        vectors::print_text(writer, reply)?;
        vectors::print_text(writer, b"\n")?;
    }
    Ok(())
}

fn call<W: Write>(writer: &mut W, line: &[u8], text: &[u8], reply: &mut [u8]) -> io::Result<()>
    ensures { Grows (W.contents writer.old) (W.contents writer.new) }
{
    let answer = tono::tono_play(text, reply);
    print_answer(writer, line, answer, reply)
}

fn replay_case<W: Write>(writer: &mut W, line: &[u8], text: &[u8]) -> io::Result<()>
    ensures { Grows (W.contents writer.old) (W.contents writer.new) }
{
    let n = vectors::length_field(line, 2, MOST_REPLY);
    let mut space = [b'.'; 33024];
    call(writer, line, text, &mut space[..n])
}

fn main(rt: HostRuntime) -> io::Result<()> {
    let mut input = vectors::buffer::<524288>();
    let n = vectors::read_full(&mut rt.stdin(), &mut input)?;
    let mut writer = BufWriter::new(rt.alloc(), rt.stdout())?;
    vectors::replay_cases(&mut writer, &input[..n], replay_case)?;
    writer.flush()
}
