// The C calls on WAVE files.
ghost use Rattle.tono_wave.specs.Wave.{WriteReturned, ReadReturned};

// Writes the WAVE file of `samples` at the start of `file`, and returns its length in bytes; the bytes
// after it stay. A refused call returns minus the refusal's number, and changes nothing.
#[unsafe(no_mangle)]
pub extern "C" fn tono_wave_write(rate: u32, samples: &[u32], file: &mut [u8]) -> i64
    ensures { WriteReturned rate samples.now file.old result file.new }
{
    tono::tono_wave_write(rate, samples, file)
}

// Reads the WAVE file `file`: its rate to `rate` and its samples' bits to the start of `samples`, and
// returns their number; the values after them stay. A refused call returns minus the refusal's number,
// and changes nothing.
#[unsafe(no_mangle)]
pub extern "C" fn tono_wave_read(file: &[u8], rate: &mut u32, samples: &mut [u32]) -> i64
    ensures { ReadReturned file.now rate.old samples.old result rate.new samples.new }
{
    tono::tono_wave_read(file, rate, samples)
}
