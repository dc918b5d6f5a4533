// What a write covers, and which write a register takes.
ghost use Rattle.std.specs.Prelude.{◌≡◌, ◌<◌, length};
ghost use Rattle.board.specs.Shape.{covers, byte_for, is_sample, sample_of, inside, valid, permitted};

// Whether a write of `bytes` at `place` covers byte `at` of the block.
pub(crate) fn covered(place: u32, bytes: &[u8], at: u32) -> bool
    ensures { result ≡ covers place (length bytes.now) at }
{
    if place <= at {
        return ((at - place) as usize) < bytes.len();
    }
    false
}

// The byte that the write puts there, 0 where it covers others.
pub(crate) fn byte_for(place: u32, bytes: &[u8], at: u32) -> u8
    ensures { result ≡ byte_for place bytes.now at }
{
    if covered(place, bytes, at) {
        return bytes[(at - place) as usize];
    }
    0
}

pub(crate) fn is_sample(place: u32, bytes: &[u8]) -> bool
    ensures { result ≡ is_sample place bytes.now }
{
    if place == 4 {
        return bytes.len() == 4;
    }
    false
}

fn word(byte: u8) -> u32
    ensures value { result ≡ byte }
    ensures upper_bound { result < 256 }
{
    byte as u32
}

pub(crate) fn sample_of(bytes: &[u8]) -> u32
    requires { length bytes.now ≡ 4 }
    ensures { result ≡ sample_of bytes.now }
{
    word(bytes[0]) + 256 * word(bytes[1]) + 65536 * word(bytes[2]) + 16777216 * word(bytes[3])
}

// Whether a write of `count` bytes covers nothing but bytes 0 to 2, and one of these.
fn is_inside(place: u32, count: usize) -> bool
    ensures { result ≡ inside place count }
{
    if count == 0 {
        return false;
    }
    if place > 3 {
        return false;
    }
    count <= (3 - place) as usize
}

fn is_valid(control: u8, status: u8, mark: u8) -> bool
    ensures { result ≡ valid control status mark }
{
    if control > 3 {
        return false;
    }
    if status == 0 {
        return mark <= 63;
    }
    if status == 2 {
        return mark <= 63;
    }
    false
}

pub(crate) fn is_permitted(place: u32, bytes: &[u8]) -> bool
    ensures { result ≡ permitted place bytes.now }
{
    if is_inside(place, bytes.len()) {
        let control = byte_for(place, bytes, 0);
        let status = byte_for(place, bytes, 1);
        let mark = byte_for(place, bytes, 2);
        return is_valid(control, status, mark);
    }
    false
}
