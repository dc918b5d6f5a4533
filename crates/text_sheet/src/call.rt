// The call on a text.
ghost use Rattle.std.specs.Prelude.{length};
ghost use Rattle.text_sheet.specs.TextSheet.{text_sheet, SheetPrinted};

use crate::sheet::print_score;
use text_judge::words_buffer;
use text_plan::plan_text;

// Prints the cue sheet of a text score at the start of `page`; the bytes after it stay. A score that is
// refused, and a sheet that does not fit, change nothing. No sheet has more than 18,692 bytes.
pub fn sheet_text(text: &[u8], page: &mut [u8]) -> Result<usize, u32>
    ensures { SheetPrinted (text_sheet text.now (length page.old)) page.old result page.new }
{
    let mut words = words_buffer();
    let (score, _) = plan_text(text, &mut words)?;
    print_score(score, &words[..score.count * 5], page)
}
