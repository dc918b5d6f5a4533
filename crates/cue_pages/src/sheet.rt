// The whole sheet.
ghost use Rattle.std.specs.Prelude.{◌≡◌, Ok};
ghost use Rattle.score.specs.Score.{score_of};
ghost use Rattle.score.specs.Refusals.{refusal_at};
ghost use Rattle.text_listing.specs.Printed.{Room, Printed};
ghost use Rattle.cue_pages.specs.Sheet.{sheet_of};

use crate::cue::cue_at;
use crate::page::put_note;
use score::{Lent, Seq};
use score_draws::note_draws;

// Prints the sheet of a score that is played from the count `draw` on at the start of `page`, and gives
// its length.
pub fn put_sheet(
    page: &mut [u8],
    seq: Seq,
    notes: &[u32],
    lane: &[f32],
    lent: Lent,
    draw: u64,
) -> usize
    requires draw_value { refusal_at (score_of seq notes.now lane.now lent) draw ≡ Ok tt }
    requires room { Room (sheet_of (score_of seq notes.now lane.now lent) draw) 0 page.old }
    ensures { Printed (sheet_of (score_of seq notes.now lane.now lent) draw) 0 page.old result page.new }
{
    let count = notes.len() / 5;
    let mut at: usize = 0;
    let mut first = draw;
    for k in 0..count {
        let draws = note_draws(seq, notes, lane, lent, k) as u64;
        let after = first + draws;
        let cue = cue_at(seq, notes, lane, lent, k, first, draws);
        at = put_note(page, at, cue, count, k + 1);
        first = after;
    }
    at
}
