// Lines, page after page.
ghost use Rattle.std.specs.Prelude.{◌≡◌, ◌++◌, ◌≤◌};
ghost use Rattle.text_listing.specs.Printed.{Room, Printed};
ghost use Rattle.cue_line.specs.Line.{line_text};
ghost use Rattle.cue_pages.specs.Sheet.{page_end, sheet_length};

use cue_line::{Cue, put_line};
use text_listing::put_byte;

// How many bytes the sheet of so many notes has.
pub fn sheet_length(count: usize) -> usize
    requires { count ≤ 256 }
    ensures { result ≡ sheet_length count }
{
    if count == 0 {
        return 0;
    }
    73 * count + (count - 1) / 60
}

// What follows the line after which there are `lines` of `count`.
fn put_page_end(page: &mut [u8], at: usize, count: usize, lines: usize) -> usize
    requires { Room (page_end count lines) at page.old }
    ensures { Printed (page_end count lines) at page.old result page.new }
{
    if lines % 60 != 0 {
        return at;
    }
    if lines >= count {
        return at;
    }
    put_byte(page, at, 12)
}

// The line of a note, and what follows it.
pub(crate) fn put_note(page: &mut [u8], at: usize, cue: Cue, count: usize, lines: usize) -> usize
    requires { Room (line_text cue ++ page_end count lines) at page.old }
    ensures { Printed (line_text cue ++ page_end count lines) at page.old result page.new }
{
    let next = put_line(page, at, cue);
    put_page_end(page, next, count, lines)
}
