// The samples of a file.
ghost use Rattle.std.specs.Prelude.{◌≡◌, ◌++◌, ◌+◌, ◌*◌, ◌≤◌, length, drop};
ghost use Rattle.wave_read.specs.Reading.{samples_in};

use wave_file::u32_at;

// The bits of `count` samples, which stand from `start` on, at the start of `samples`.
pub(crate) fn copy_samples(file: &[u8], start: usize, count: usize, samples: &mut [u32])
    requires count_in_bounds { start + 4 * count ≤ length file.now }
    requires count_in_bounds_2 { count ≤ length samples.old }
    ensures { samples.new ≡ samples_in count (drop start file.now) ++ drop count samples.old }
{
    for i in 0..count {
        samples[i] = u32_at(file, start + 4 * i);
    }
}
