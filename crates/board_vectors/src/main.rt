// Replays lists of operations on a board. A line of standard input is one of
//   new
//   write PLACE COUNT BYTE..
//   read PLACE
//   tick
// with each number in hexadecimal. The line is written again with the write's number, the read's
// byte or the tick's sample bits, and with the interrupt line after it; `new` has no answer.
#![tactic(auto)]

ghost use Rattle.std.specs.Prelude.{◌≤◌, length};
ghost use Rattle.programs.specs.Streams.{Grows};

use board::Board;
use std::io;
use std::io::{BufWriter, Write};

// No line has more bytes than this; where it asks for more, these are written.
const MOST_BYTES: usize = 16;

// The fields from the fourth on as bytes.
fn read_bytes(line: &[u8], bytes: &mut [u8]) {
    for (i, byte) in bytes.iter_mut().enumerate() {
        *byte = (vectors::u32_field(line, i + 3) % 256) as u8;
    }
}

// The answer's words after the line, and a newline.
fn print_answer<W: Write>(writer: &mut W, answer: u64, interrupt: bool) -> io::Result<()>
    ensures { Grows (W.contents writer.old) (W.contents writer.new) }
{
    vectors::print_u64(writer, answer)?;
    vectors::print_u64(writer, u64::from(interrupt))?;
    vectors::print_text(writer, b"\n")
}

fn write_bytes<W: Write>(
    writer: &mut W,
    board: Board,
    line: &[u8],
    bytes: &mut [u8],
) -> io::Result<Board>
    ensures { Grows (W.contents writer.old) (W.contents writer.new) }
{
    read_bytes(line, bytes);
    let write = board.write(vectors::u32_field(line, 1), bytes);
    let after = write.board;
    let number = board::write_number(write.outcome);
    print_answer(writer, u64::from(number), after.interrupt())?;
    Ok(after)
}

fn replay_write<W: Write>(writer: &mut W, board: Board, line: &[u8]) -> io::Result<Board>
    ensures { Grows (W.contents writer.old) (W.contents writer.new) }
{
    let count = vectors::length_field(line, 2, MOST_BYTES);
    let mut space = [0u8; 16];
    write_bytes(writer, board, line, &mut space[..count])
}

fn replay_read<W: Write>(writer: &mut W, board: Board, line: &[u8]) -> io::Result<Board>
    ensures { Grows (W.contents writer.old) (W.contents writer.new) }
{
    let byte = board.read(vectors::u32_field(line, 1));
    print_answer(writer, u64::from(byte), board.interrupt())?;
    Ok(board)
}

fn replay_tick<W: Write>(writer: &mut W, board: Board) -> io::Result<Board>
    ensures { Grows (W.contents writer.old) (W.contents writer.new) }
{
    let tick = board.tick();
    let after = tick.board;
    print_answer(writer, u64::from(tick.sample), after.interrupt())?;
    Ok(after)
}

// The board after the line's operation.
fn replay_line<W: Write>(writer: &mut W, board: Board, line: &[u8]) -> io::Result<Board>
    ensures { Grows (W.contents writer.old) (W.contents writer.new) }
{
    vectors::print_text(writer, line)?;
    if vectors::is_named(line, b"write") {
        return replay_write(writer, board, line);
    }
    if vectors::is_named(line, b"read") {
        return replay_read(writer, board, line);
    }
    if vectors::is_named(line, b"tick") {
        return replay_tick(writer, board);
    }
    vectors::print_text(writer, b"\n")?;
    Ok(Board::new())
}

fn main(rt: HostRuntime) -> io::Result<()> {
    let mut input = vectors::buffer::<524288>();
    let n = vectors::read_full(&mut rt.stdin(), &mut input)?;
    let mut writer = BufWriter::new(rt.alloc(), rt.stdout())?;
    let mut board = Board::new();
    vectors::replay_lines(&mut writer, &input[..n], |writer, line| {
        board = replay_line(writer, board, line)?;
        Ok(())
    })?;
    writer.flush()
}
