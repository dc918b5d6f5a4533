// What a score prints. Each function prints into a lent slice from a place on and answers the place
// after it; all other bytes stay.
#![tactic(auto)]

mod digits; // digits.rt: bytes and numbers
mod lengths; // lengths.rt: how long they are
mod lines; // lines.rt: the lines G, F and R, and the listing

pub use digits::{put_byte, put_decimal, put_hex_8, put_hex_16};
pub use lengths::{decimal_length, listing_length, refusal_length};
pub use lines::{frame_bits, put_lines, put_listing, put_refusal};
