// Replay of cases from a text, for programs that compare the library with stored answers. A line is
// one case: a name and its arguments, parted by single spaces, each number in lowercase hexadecimal,
// a float by its bit pattern. A program reads the text from standard input and writes each line
// again with the answers appended.
#![tactic(auto)]

mod fields; // fields.rt: fields of a line, and numbers in them
mod input; // input.rt: where a text is read to
mod patterns; // patterns.rt: floats as bit patterns
mod print; // print.rt: texts and numbers on what a program writes to
mod replay; // replay.rt: from line to line of a text, and from case to case
mod values; // values.rt: numbers of any type that a program writes

pub use fields::{Number, is_named, length_field, numbers, u32_field, u64_field};
pub use input::buffer;
pub use patterns::{f32_field, f64_field};
pub use print::{print_f32, print_f64, print_i64, print_text, print_u64};
pub use programs::read_full;
pub use replay::{replay_cases, replay_lines};
pub use values::{Value, answer, print_values};
