// The calls on WAVE files as C has them: a number that is a length, a count or minus a refusal's number.
// `tono` exports them.
#![tactic(auto)]

ghost use Rattle.tono_wave.specs.Wave.{WriteReturned, ReadReturned};

// Writes the WAVE file of `samples` at the start of `file`, and returns its length in bytes; the bytes
// after it stay. A refused call returns minus the refusal's number, and changes nothing.
pub fn write(rate: u32, samples: &[u32], file: &mut [u8]) -> i64
    ensures { WriteReturned rate samples.now file.old result file.new }
{
    match wave_write::write_wave(rate, samples, file) {
        Ok(length) => returned::length_as_i64(length),
        Err(refusal) => returned::minus_number(refusal.number()),
    }
}

// Reads the WAVE file `file`: its rate to `rate` and its samples' bits to the start of `samples`, and
// returns their number; the values after them stay. A refused call returns minus the refusal's number,
// and changes nothing.
pub fn read(file: &[u8], rate: &mut u32, samples: &mut [u32]) -> i64
    ensures { ReadReturned file.now rate.old samples.old result rate.new samples.new }
{
    match wave_read::read_wave(file, samples) {
        Ok(found) => {
            *rate = found.rate;
            returned::length_as_i64(found.count)
        }
        Err(refusal) => returned::minus_number(refusal.number()),
    }
}
