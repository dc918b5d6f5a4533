// The converter's registers: the output board of a rig as a value, a block of eight bytes with a
// queue of 64 samples.
//
//   let board = Board::new();
//   let write = board.write(4, &[0, 0, 128, 63]); // a sample, 1.0
//   let tick = write.board.tick();
#![tactic(auto)]

mod answer; // answer.rt: what a write answers, with its number
mod queue; // queue.rt: the samples that wait
mod registers; // registers.rt: the board, its writes, reads and ticks
mod shape; // shape.rt: what a write covers, and which is taken

pub use answer::{WriteRefusal, write_number};
pub use registers::{Board, Tick, Write};
