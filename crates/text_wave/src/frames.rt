// Frames as a file.
ghost use Rattle.std.specs.Prelude.{map, ◌≤◌, length};
ghost use Rattle.text_listing.specs.Lines.{frame_bits};
ghost use Rattle.wave_write.specs.Write.{write_result};
ghost use Rattle.text_wave.specs.TextFile.{Filed};

use crate::bits::{bits_buffer, put_bits};

pub(crate) fn write_frames(rate: u32, frames: &[f32], file: &mut [u8]) -> Result<usize, u32>
    requires { length frames.now ≤ 2048 }
    ensures { Filed (write_result rate (map frame_bits frames.now) (length file.old)) file.old result file.new }
{
    let mut bits = bits_buffer();
    put_bits(frames, &mut bits);
    let n = frames.len();
    match wave_write::write_wave(rate, &bits[..n], file) {
        Ok(length) => Ok(length),
        Err(refusal) => Err(refusal.number()),
    }
}
