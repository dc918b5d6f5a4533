// The call.
ghost use Rattle.wave_read.specs.Read.{Reads};

use crate::samples::copy_samples;
use crate::walk::find_samples;
use wave_file::FileRefusal;

// A file's rate and the number of its samples.
#[derive(Clone, Copy)]
pub struct Samples {
    pub rate: u32,
    pub count: usize,
}

// Puts the samples' bits at the start of `samples`; the values after them stay. A refused call
// changes nothing.
pub fn read_wave(file: &[u8], samples: &mut [u32]) -> Result<Samples, FileRefusal>
    ensures { Reads file.now samples.old result samples.new }
{
    let place = find_samples(file)?;
    if samples.len() < place.count {
        return Err(FileRefusal::Room);
    }
    copy_samples(file, place.start, place.count, samples);
    Ok(Samples {
        rate: place.rate,
        count: place.count,
    })
}
