// The samples of a file.
ghost use Rattle.std.specs.Prelude.{◌+◌, ◌*◌, ◌≤◌, length};
ghost use Rattle.wave_file.specs.Bytes.{Placed};
ghost use Rattle.wave_write.specs.Header.{sample_bytes};

use wave_file::put_u32;

pub(crate) fn put_samples(file: &mut [u8], samples: &[u32])
    requires { 58 + 4 * length samples.now ≤ length file.old }
    ensures { Placed (sample_bytes samples.now) 58 file.old file.new }
{
    for (i, sample) in samples.iter().enumerate() {
        put_u32(file, 58 + 4 * i, *sample);
    }
}
