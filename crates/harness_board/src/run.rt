// The operations one after the other.
ghost use Rattle.std.specs.Prelude.{◌≡◌};
ghost use Rattle.board.specs.Registers.{digit};
ghost use Rattle.harness_board.specs.Ran.{Ran};

use crate::step::step_at;
use board::Board;

fn bit(on: bool) -> u32
    ensures { result ≡ digit on }
{
    if on { 1 } else { 0 }
}

// Runs operations on a new board: `0 place count byte..` is a write, `1 place` a read, `2` a tick.
// Each answers two words: a write's number, a read's byte or a tick's sample bits; then the
// interrupt line after it. The answer is how many operations were done; it stops before one that
// is cut off, is none of these, has a byte above 255, or whose answers have no room.
pub fn run_board(ops: &[u32], answers: &mut [u32]) -> usize
    ensures { Ran ops.now answers.old result answers.new }
{
    let room = answers.len() / 2;
    let mut board = Board::new();
    let mut at = 0usize;
    for done in 0..room {
        let Some(step) = step_at(&mut board, ops, at) else {
            return done;
        };
        answers[2 * done] = step.answer;
        answers[2 * done + 1] = bit(board.interrupt());
        at = step.next;
    }
    room
}
