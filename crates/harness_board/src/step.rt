// One operation among the words: `0 place count byte..` a write, `1 place` a read, `2` a tick.
ghost use Rattle.std.specs.Prelude.{◌≡◌, true, ◌≤◌, length, drop};
ghost use Rattle.board.specs.Registers.{registers};
ghost use Rattle.board.specs.Write.{write_of, written};
ghost use Rattle.harness_board.specs.Words.{all_bytes, write_in, read_in, next_of};
ghost use Rattle.harness_board.specs.Ran.{step_of, stepped};

use board::{Board, Write, WriteRefusal};

// An operation's first word and where the next operation starts. The board, whose queue holds 64 samples, is no part of
// it: `step_at` changes it in place.
#[derive(Clone, Copy)]
pub(crate) struct Step {
    pub(crate) answer: u32,
    pub(crate) next: usize,
}

fn wide(word: u32) -> usize
    ensures { result ≡ word }
{
    word as usize
}

fn word(byte: u8) -> u32
    ensures { result ≡ byte }
{
    byte as u32
}

fn are_bytes(words: &[u32]) -> bool
    ensures { result ≡ all_bytes words.now }
{
    for word in words {
        if *word > 255 {
            return false;
        }
    }
    true
}

fn copy_bytes(words: &[u32], bytes: &mut [u8])
    requires words_value { all_bytes words.now ≡ true }
    requires bytes_len { length bytes.old ≡ length words.now }
    ensures { bytes.new ≡ words.now }
{
    for (i, word) in words.iter().enumerate() {
        bytes[i] = *word as u8;
    }
}

fn write_through(board: Board, place: u32, words: &[u32], bytes: &mut [u8]) -> Write
    requires words_value { all_bytes words.now ≡ true }
    requires bytes_len { length bytes.old ≡ length words.now }
    ensures { written result ≡ write_of (registers board) place words.now }
{
    copy_bytes(words, bytes);
    board.write(place, bytes)
}

// The write of bytes that stand as words. One of more than 8 bytes goes past the block, wherever it
// starts.
fn write_words(board: Board, place: u32, words: &[u32]) -> Write
    requires { all_bytes words.now ≡ true }
    ensures { written result ≡ write_of (registers board) place words.now }
{
    let count = words.len();
    if count > 8 {
        return Write {
            board,
            outcome: Err(WriteRefusal::Invalid),
        };
    }
    let mut space = [0u8; 8];
    write_through(board, place, words, &mut space[..count])
}

// The write whose place stands at `at`.
fn write_step(board: &mut Board, ops: &[u32], at: usize) -> Option<Step>
    requires { at ≤ length ops.now }
    ensures { stepped ops.now board.new result ≡ step_of (registers board.old) (write_in (drop at ops.now)) }
{
    if ops.len() - at < 2 {
        return None;
    }
    let place = ops[at];
    let start = at + 2;
    let count = wide(ops[at + 1]);
    if count > ops.len() - start {
        return None;
    }
    let next = start + count;
    let words = &ops[start..next];
    if are_bytes(words) {
        let write = write_words(*board, place, words);
        *board = write.board;
        return Some(Step {
            answer: board::write_number(write.outcome),
            next,
        });
    }
    None
}

// The read whose place stands at `at`.
fn read_step(board: &Board, ops: &[u32], at: usize) -> Option<Step>
    requires { at ≤ length ops.now }
    ensures { stepped ops.now board.now result ≡ step_of (registers board.now) (read_in (drop at ops.now)) }
{
    if at == ops.len() {
        return None;
    }
    Some(Step {
        answer: word(board.read(ops[at])),
        next: at + 1,
    })
}

// The operation that starts at `at`, done on the board; None, and the board as it was, where there is none, or a
// malformed one.
pub(crate) fn step_at(board: &mut Board, ops: &[u32], at: usize) -> Option<Step>
    ensures { stepped ops.now board.new result ≡ step_of (registers board.old) (next_of (drop at ops.now)) }
{
    if at >= ops.len() {
        return None;
    }
    let kind = ops[at];
    if kind == 0 {
        return write_step(board, ops, at + 1);
    }
    if kind == 1 {
        return read_step(board, ops, at + 1);
    }
    if kind == 2 {
        let tick = board.tick();
        *board = tick.board;
        return Some(Step {
            answer: tick.sample,
            next: at + 1,
        });
    }
    None
}
