// The lines G, F and R, and the listing.
ghost use Rattle.std.specs.Prelude.{◌≡◌, length};
ghost use Rattle.text_listing.specs.Lines.{printed_g, printed_f, printed_r, frame_bits, frame_lines, lines_of, listing_of};
ghost use Rattle.text_listing.specs.Printed.{Room, Printed, FramesRoom};

use crate::digits::{put_byte, put_decimal_field, put_hex_8_field, put_hex_16_field};

// The generator's end state and the draw count.
fn put_opening(out: &mut [u8], at: usize, state: u64, draw: u64) -> usize
    requires { Room (printed_g state draw) at out.old }
    ensures { Printed (printed_g state draw) at out.old result out.new }
{
    let first = put_byte(out, at, b'G');
    let second = put_hex_16_field(out, first, state);
    let last = put_decimal_field(out, second, draw);
    put_byte(out, last, b'\n')
}

// A frame's index and bits.
fn put_frame(out: &mut [u8], at: usize, index: usize, bits: u32) -> usize
    requires { Room (printed_f index bits) at out.old }
    ensures { Printed (printed_f index bits) at out.old result out.new }
{
    let first = put_byte(out, at, b'F');
    let second = put_decimal_field(out, first, index as u64);
    let last = put_hex_8_field(out, second, bits as u64);
    put_byte(out, last, b'\n')
}

// The bits of a frame as they are printed: one pattern for every NaN.
pub fn frame_bits(x: f32) -> u32
    ensures { result ≡ frame_bits x }
{
    if x != x {
        return 0x7fc0_0000;
    }
    f32::to_bits(x)
}

// The lines of all frames.
fn put_frames(out: &mut [u8], start: usize, frames: &[f32]) -> usize
    requires { Room (frame_lines (length frames.now) frames.now) start out.old }
    ensures { Printed (frame_lines (length frames.now) frames.now) start out.old result out.new }
{
    let mut at = start;
    for (i, frame) in frames.iter().enumerate() {
        at = put_frame(out, at, i, frame_bits(*frame));
    }
    at
}

// The lines of all bit patterns, from the first byte on.
pub fn put_lines(out: &mut [u8], bits: &[u32]) -> usize
    requires { FramesRoom (length bits.now) 0 (length out.old) }
    ensures { Printed (lines_of bits.now) 0 out.old result out.new }
{
    let mut at = 0;
    for (i, pattern) in bits.iter().enumerate() {
        at = put_frame(out, at, i, *pattern);
    }
    at
}

// The listing of an accepted score, from the first byte on.
pub fn put_listing(out: &mut [u8], state: u64, draw: u64, frames: &[f32]) -> usize
    requires { Room (listing_of state draw frames.now) 0 out.old }
    ensures { Printed (listing_of state draw frames.now) 0 out.old result out.new }
{
    let first = put_opening(out, 0, state, draw);
    put_frames(out, first, frames)
}

// The line of a refused score, from the first byte on.
pub fn put_refusal(out: &mut [u8], number: u32) -> usize
    requires { Room (printed_r number) 0 out.old }
    ensures { Printed (printed_r number) 0 out.old result out.new }
{
    let first = put_byte(out, 0, b'R');
    let last = put_decimal_field(out, first, number as u64);
    put_byte(out, last, b'\n')
}
