// The 58 bytes before the samples, each field at its place.
ghost use Rattle.std.specs.Prelude.{◌+◌, ◌*◌, ◌≤◌, ◌++◌, length};
ghost use Rattle.wave_file.specs.Bytes.{little_endian, Placed};
ghost use Rattle.wave_file.specs.Chunk.{RIFF, WAVE, FMT, FACT, DATA, chunk};
ghost use Rattle.wave_write.specs.Header.{fmt_body};

use wave_file::{DATA, FACT, FMT, RIFF, WAVE, put_u16, put_u32};

// RIFF's name, the length of what follows, and the form's name.
pub(crate) fn put_form(file: &mut [u8], size: u32)
    requires { 58 ≤ length file.old }
    ensures { Placed (little_endian 4 RIFF ++ (little_endian 4 size ++ little_endian 4 WAVE)) 0 file.old file.new }
{
    put_u32(file, 0, RIFF);
    put_u32(file, 4, size);
    put_u32(file, 8, WAVE);
}

pub(crate) fn put_fmt(file: &mut [u8], rate: u32)
    requires in_bounds { 58 ≤ length file.old }
    requires rate_bound { rate ≤ 192000 }
    ensures { Placed (chunk FMT (fmt_body rate)) 12 file.old file.new }
{
    put_u32(file, 12, FMT);
    put_u32(file, 16, 18);
    put_u16(file, 20, 3); // tag: IEEE float
    put_u16(file, 22, 1); // channels
    put_u32(file, 24, rate);
    put_widths(file, rate);
}

// The last fields of fmt.
fn put_widths(file: &mut [u8], rate: u32)
    requires in_bounds { 58 ≤ length file.old }
    requires rate_bound { rate ≤ 192000 }
    ensures { Placed (little_endian 4 (4 * rate) ++ (little_endian 2 4 ++ (little_endian 2 32 ++ little_endian 2 0))) 28 file.old file.new }
{
    put_u32(file, 28, 4 * rate); // bytes a second
    put_u16(file, 32, 4); // bytes a frame
    put_u16(file, 34, 32); // bits a sample
    put_u16(file, 36, 0); // bytes of the extension
}

pub(crate) fn put_fact(file: &mut [u8], count: u32)
    requires { 58 ≤ length file.old }
    ensures { Placed (chunk FACT (little_endian 4 count)) 38 file.old file.new }
{
    put_u32(file, 38, FACT);
    put_u32(file, 42, 4);
    put_u32(file, 46, count);
}

// The data chunk's name and size; the samples follow.
pub(crate) fn put_data(file: &mut [u8], size: u32)
    requires { 58 ≤ length file.old }
    ensures { Placed (little_endian 4 DATA ++ little_endian 4 size) 50 file.old file.new }
{
    put_u32(file, 50, DATA);
    put_u32(file, 54, size);
}
