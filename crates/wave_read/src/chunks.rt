// One chunk of a file, by its name.
ghost use Rattle.std.specs.Prelude.{◌≡◌, ◌≤◌, length, drop};
ghost use Rattle.wave_file.specs.Refusal.{FileResult};
ghost use Rattle.wave_read.specs.Reading.{Wave, fmt_chunk, fact_chunk};
ghost use Rattle.wave_read.specs.Walked.{Whole, met_in, Stepped};

use wave_file::{DATA, FACT, FMT, FileRefusal, u16_at, u32_at};

// What was met of a file: fmt's rate and fact's count.
#[derive(Clone, Copy)]
pub struct Met {
    pub rate: Option<u32>,
    pub count: Option<u32>,
}

// The chunk at `at`, whose size and name are read and which is within the file: fmt. Gives what was met with it.
fn fmt_chunk(file: &[u8], at: usize, size: u32, met: Met) -> Result<Met, FileRefusal>
    requires { Whole file.now at size }
    ensures { (next : Met → FileResult Wave) → met_in result next ≡ fmt_chunk met.rate met.count (drop at file.now) next }
{
    let rate = met.rate; // of a first fmt
    if let Some(_) = rate {
        return Err(FileRefusal::Structure);
    }
    if size != 18 {
        return Err(FileRefusal::Structure);
    }
    if u16_at(file, at + 8) != 3 {
        return Err(FileRefusal::Format);
    }
    if u16_at(file, at + 10) != 1 {
        return Err(FileRefusal::Format);
    }
    if u16_at(file, at + 22) != 32 {
        return Err(FileRefusal::Format);
    }
    let rate = Some(u32_at(file, at + 12));
    let count = met.count;
    Ok(Met { rate, count })
}

// Likewise: fact.
fn fact_chunk(file: &[u8], at: usize, size: u32, met: Met) -> Result<Met, FileRefusal>
    requires { Whole file.now at size }
    ensures { (next : Met → FileResult Wave) → met_in result next ≡ fact_chunk met.rate met.count (drop at file.now) next }
{
    let count = met.count;
    if let Some(_) = count {
        return Err(FileRefusal::Structure);
    }
    if size != 4 {
        return Err(FileRefusal::Structure);
    }
    let rate = met.rate;
    let count = Some(u32_at(file, at + 8));
    Ok(Met { rate, count })
}

// The chunk at `at`, of which anything may be past the end. Gives what was met with it; nothing where it has the samples.
pub(crate) fn chunk_at(file: &[u8], at: usize, met: Met) -> Result<Option<Met>, FileRefusal>
    requires { at ≤ length file.now }
    ensures { Stepped file.now at met result }
{
    let left = file.len() - at;
    if left < 8 {
        return Err(FileRefusal::Structure);
    }
    let size = u32_at(file, at + 4);
    if left - 8 < size as usize {
        return Err(FileRefusal::Structure);
    }
    let name = u32_at(file, at);
    if name == FMT {
        return Ok(Some(fmt_chunk(file, at, size, met)?));
    }
    if name == FACT {
        return Ok(Some(fact_chunk(file, at, size, met)?));
    }
    if name == DATA {
        return Ok(None);
    }
    Ok(Some(met))
}
