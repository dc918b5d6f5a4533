// From chunk to chunk up to the samples.
ghost use Rattle.std.specs.Prelude.{◌≡◌, ◌+◌, ◌≤◌, length, drop};
ghost use Rattle.wave_file.specs.Chunk.{ck_size, chunk_length};
ghost use Rattle.wave_read.specs.Reading.{data_chunk, walk, reading};
ghost use Rattle.wave_read.specs.Walked.{Finds};

use crate::chunks::{Met, chunk_at};
use wave_file::{FileRefusal, RIFF, WAVE, u32_at};

// Where a file's samples start, and what was met before them.
#[derive(Clone, Copy)]
pub struct Place {
    pub rate: u32,
    pub count: usize,
    pub start: usize,
}

// The data chunk at `at`, which is within the file.
fn data_chunk(file: &[u8], at: usize, met: Met) -> Result<Place, FileRefusal>
    requires { at + (8 + ck_size (drop at file.now)) ≤ length file.now }
    ensures { Finds file.now result (data_chunk met.rate met.count (drop at file.now)) }
{
    let rate = met.rate;
    let Some(rate) = rate else {
        return Err(FileRefusal::Structure);
    };
    let count = met.count;
    let Some(count) = count else {
        return Err(FileRefusal::Structure);
    };
    let size = u32_at(file, at + 4) as usize;
    let count = count as usize;
    if size != 4 * count {
        return Err(FileRefusal::Structure);
    }
    Ok(Place {
        rate,
        count,
        start: at + 8,
    })
}

// The place behind the chunk at `at`, which is within the file, and behind its padding byte.
fn chunk_end(file: &[u8], at: usize) -> usize
    requires { at + (8 + ck_size (drop at file.now)) ≤ length file.now }
    ensures { result ≡ at + chunk_length (ck_size (drop at file.now)) }
{
    let size = u32_at(file, at + 4) as usize;
    let padding = size % 2;
    at + (8 + size + padding)
}

fn find_data(file: &[u8]) -> Result<Place, FileRefusal>
    requires { 12 ≤ length file.now }
    ensures { Finds file.now result (walk 0 (record { rate = None; count = None }) (drop 12 file.now)) }
{
    let mut at = 12;
    let mut met = Met {
        rate: None,
        count: None,
    };
    while at < file.len() {
        let Some(after) = chunk_at(file, at, met)? else {
            return data_chunk(file, at, met);
        };
        met = after;
        at = chunk_end(file, at);
    }
    Err(FileRefusal::Structure)
}

// The samples of a file; or its first fault.
pub(crate) fn find_samples(file: &[u8]) -> Result<Place, FileRefusal>
    ensures { Finds file.now result (reading file.now) }
{
    if file.len() < 12 {
        return Err(FileRefusal::Structure);
    }
    if u32_at(file, 0) != RIFF {
        return Err(FileRefusal::Structure);
    }
    if u32_at(file, 4) as usize != file.len() - 8 {
        return Err(FileRefusal::Structure);
    }
    if u32_at(file, 8) != WAVE {
        return Err(FileRefusal::Structure);
    }
    find_data(file)
}
