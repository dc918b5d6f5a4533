// WAVE files: numbers in bytes, the names of chunks, and what refuses a file. `wave_write` writes
// files and `wave_read` reads them.
#![tactic(auto)]

mod bytes; // bytes.rt: little-endian numbers at a place of a file
mod chunk; // chunk.rt: the names of chunks
mod refusal; // refusal.rt: why a file is neither written nor read

pub use bytes::{put_u16, put_u32, u16_at, u32_at};
pub use chunk::{DATA, FACT, FMT, RIFF, WAVE};
pub use refusal::FileRefusal;
