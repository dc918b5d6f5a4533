// Little-endian numbers at a place of a file.
ghost use Rattle.std.specs.Prelude.{◌≡◌, ◌+◌, ◌≤◌, ◌<◌, length};
ghost use Rattle.wave_file.specs.Bytes.{little_endian, field_at, Placed};

fn wide(b: u8) -> u32
    ensures { (result ≡ b) × (result < 256) }
{
    b as u32
}

pub fn u16_at(file: &[u8], at: usize) -> u32
    requires { at + 2 ≤ length file.now }
    ensures { (result ≡ field_at 2 at file.now) × (result < 65536) }
{
    wide(file[at]) + 256 * wide(file[at + 1])
}

pub fn u32_at(file: &[u8], at: usize) -> u32
    requires { at + 4 ≤ length file.now }
    ensures { result ≡ field_at 4 at file.now }
{
    u16_at(file, at) + 65536 * u16_at(file, at + 2)
}

// The lowest two bytes of v.
pub fn put_u16(file: &mut [u8], at: usize, v: u32)
    requires { at + 2 ≤ length file.old }
    ensures { Placed (little_endian 2 v) at file.old file.new }
{
    file[at] = (v % 256) as u8;
    file[at + 1] = (v / 256 % 256) as u8;
}

pub fn put_u32(file: &mut [u8], at: usize, v: u32)
    requires { at + 4 ≤ length file.old }
    ensures { Placed (little_endian 4 v) at file.old file.new }
{
    put_u16(file, at, v);
    put_u16(file, at + 2, v / 65536);
}
