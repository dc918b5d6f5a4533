// The cue sheet of a text score, for a host that prints it.
ghost use Rattle.tono_text.specs.CueSheet.{SheetReturned};

// Writes the cue sheet of the text score `score` at the start of `page`, and returns its length in bytes; the
// bytes after it stay. A refused call returns minus the refusal's number, and changes nothing.
#[unsafe(no_mangle)]
pub extern "C" fn tono_cue_sheet(score: &[u8], page: &mut [u8]) -> i64
    ensures { SheetReturned score.now page.old result page.new }
{
    tono::tono_cue_sheet(score, page)
}
