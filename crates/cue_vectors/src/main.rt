// Replays text scores whose cue sheets a reference gave. Standard input is a run of cases: a line
//   sheet LENGTH PAGE NAME
// and then the text score's bytes, as many as LENGTH says; the page has PAGE bytes, each a point before the
// call. The line is written again, with the call's answer; then the whole page follows, and a newline.
//
// `compare cue-vectors` writes stdin and stdout, by a reference in Rust from the words of the request
// (compare/src/cue_reference.rs) and no sheet of ours.
#![tactic(auto)]

ghost use Rattle.programs.specs.Streams.{Grows};

use std::io;
use std::io::{BufWriter, Write};

// The longest page. No sheet has more than 18,692 bytes.
const MOST_PAGE: usize = 18944;

fn call<W: Write>(writer: &mut W, line: &[u8], text: &[u8], page: &mut [u8]) -> io::Result<()>
    ensures { Grows (W.contents writer.old) (W.contents writer.new) }
{
    let answer = tono::tono_cue_sheet(text, page);
    vectors::print_text(writer, line)?;
    vectors::print_i64(writer, answer)?;
    vectors::print_text(writer, b"\n")?;
    vectors::print_text(writer, page)?;
    vectors::print_text(writer, b"\n")
}

fn replay_case<W: Write>(writer: &mut W, line: &[u8], text: &[u8]) -> io::Result<()>
    ensures { Grows (W.contents writer.old) (W.contents writer.new) }
{
    let n = vectors::length_field(line, 2, MOST_PAGE);
    let mut space = [b'.'; 18944];
    call(writer, line, text, &mut space[..n])
}

fn main(rt: HostRuntime) -> io::Result<()> {
    let mut input = vectors::buffer::<524288>();
    let n = vectors::read_full(&mut rt.stdin(), &mut input)?;
    let mut writer = BufWriter::new(rt.alloc(), rt.stdout())?;
    vectors::replay_cases(&mut writer, &input[..n], replay_case)?;
    writer.flush()
}
