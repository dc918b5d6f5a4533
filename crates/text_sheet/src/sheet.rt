// The sheet of what a text says.
ghost use Rattle.std.specs.Prelude.{◌≡◌, ◌≤◌, length, Ok};
ghost use Rattle.score.specs.Refusals.{refusal_at};
ghost use Rattle.text_read.specs.Text.{seq_of};
ghost use Rattle.text_judge.specs.Call.{call_of};
ghost use Rattle.cue_pages.specs.Sheet.{sheet_of};
ghost use Rattle.text_sheet.specs.TextSheet.{sheet_fitting, SheetPrinted};

use cue_pages::{put_sheet, sheet_length};
use score::Lent;
use text_read::TextScore;

// Prints the sheet of an accepted score, whose words stand in a lent slice, at the start of `page`; 34
// where it does not fit.
pub(crate) fn print_score(score: TextScore, notes: &[u32], page: &mut [u8]) -> Result<usize, u32>
    requires draw_value { refusal_at (call_of (seq_of score.numbers score.env score.sound) notes.now score.numbers.n) score.draw ≡ Ok tt }
    requires notes_len_bound { length notes.now ≤ 1280 }
    ensures { SheetPrinted
        (sheet_fitting (length page.old) (sheet_of (call_of (seq_of score.numbers score.env score.sound) notes.now score.numbers.n) score.draw))
        page.old result page.new }
{
    let length = sheet_length(notes.len() / 5);
    if page.len() < length {
        return Err(34);
    }
    let numbers = score.numbers;
    let lent = Lent {
        n: numbers.n as usize,
        room: 2048,
        string: 9600,
    };
    let lane = [0.0f32; 1];
    let seq = score.seq();
    let end = put_sheet(page, seq, notes, &lane[..0], lent, score.draw);
    Ok(end)
}
