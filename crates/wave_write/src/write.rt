// The call.
ghost use Rattle.std.specs.Prelude.{◌+◌, ◌*◌, ◌≤◌, length};
ghost use Rattle.wave_file.specs.Bytes.{Placed};
ghost use Rattle.wave_write.specs.Header.{wave_file};
ghost use Rattle.wave_write.specs.Write.{Wrote};

use crate::header::{put_data, put_fact, put_fmt, put_form};
use crate::samples::put_samples;
use wave_file::FileRefusal;

fn put_file(file: &mut [u8], rate: u32, samples: &[u32])
    requires rate_bound { rate ≤ 192000 }
    requires samples_len_bound { length samples.now ≤ 16777216 }
    requires samples_in_bounds { 58 + 4 * length samples.now ≤ length file.old }
    ensures { Placed (wave_file rate samples.now) 0 file.old file.new }
{
    let count = samples.len() as u32;
    let size = 4 * count;
    put_form(file, 50 + size);
    put_fmt(file, rate);
    put_fact(file, count);
    put_data(file, size);
    put_samples(file, samples);
}

// Writes the file of `samples` at the start of `file`, and gives its length; the bytes after it stay. A
// refused call changes nothing.
pub fn write_wave(rate: u32, samples: &[u32], file: &mut [u8]) -> Result<usize, FileRefusal>
    ensures { Wrote rate samples.now file.old result file.new }
{
    if rate < 8000 {
        return Err(FileRefusal::Rate);
    }
    if rate > 192000 {
        return Err(FileRefusal::Rate);
    }
    if samples.len() > 16777216 {
        return Err(FileRefusal::Frames);
    }
    let length = 58 + 4 * samples.len();
    if file.len() < length {
        return Err(FileRefusal::Room);
    }
    put_file(file, rate, samples);
    Ok(length)
}
