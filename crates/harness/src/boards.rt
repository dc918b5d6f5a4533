// A board from C.
ghost use Rattle.harness_board.specs.Ran.{Ran};

// Runs a list of operations on a new board, as words: `0 place count byte..` is a write, `1 place` a
// read, `2` a tick. Each operation answers two words: a write's number (0, 38, 39), a read's byte or
// a tick's sample bits; then the interrupt line after it, 0 or 1. The answer is how many operations
// were done; it stops before one that is cut off, is none of these, has a byte above 255, or whose
// answers have no room.
#[unsafe(no_mangle)]
pub extern "C" fn h_board(ops: &[u32], answers: &mut [u32]) -> usize
    ensures { Ran ops.now answers.old result answers.new }
{
    harness_board::run_board(ops, answers)
}
