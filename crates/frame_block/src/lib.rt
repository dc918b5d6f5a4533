// What voices and drums in blocks of up to 64 frames share: where a block ends, where the last whole block
// ends, the levels that need nothing but the frames' times, rows of a table, and the frames of a block.
#![tactic(auto)]

mod decay; // decay.rt: exp(-t / decay) of a block
mod levels; // levels.rt: a table of levels by the frames' numbers
mod part; // part.rt: exp(-t / decay) and other exponentials of a block that may be shorter
mod row; // row.rt: some values of a frame, stored in a table
mod run; // run.rt: frames one after another

ghost use Rattle.std.specs.Prelude.{◌≡◌, ◌+◌, ◌%◌, ◌≤◌, ◌<◌};

pub use decay::decays;
pub use levels::table;
pub use part::{decays_before, exps_before, zeros_before};
pub use row::store;
pub use run::frames;

// How many of n frames make whole blocks.
pub fn whole_blocks(n: usize) -> usize
    ensures { (result ≤ n) × (result % 64 ≡ 0) × (n < result + 64) }
{
    n - n % 64
}

// Where the block from frame i on ends, of n frames.
pub fn block_end(i: usize, n: usize) -> usize
    requires { i < n }
    ensures { (i < result) × (result ≤ n) × (result ≤ i + 64) × (result < n → result ≡ i + 64) }
{
    if n - i <= 64 { n } else { i + 64 }
}
