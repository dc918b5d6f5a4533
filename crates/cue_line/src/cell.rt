// A right-aligned column.
ghost use Rattle.std.specs.Prelude.{◌≡◌, length};
ghost use Rattle.text_listing.specs.Printed.{Room, Printed};
ghost use Rattle.cue_line.specs.Columns.{cell_text, right};

use crate::put::put_spaces;
use text_listing::{decimal_length, put_byte, put_decimal};

// A column shows a number in decimal, or, where there is none, a dash.
fn cell_length(cell: Option<u64>) -> usize
    ensures { result ≡ length (cell_text cell) }
{
    match cell {
        Some(v) => decimal_length(v),
        None => 1,
    }
}

fn put_cell(out: &mut [u8], at: usize, cell: Option<u64>) -> usize
    requires { Room (cell_text cell) at out.old }
    ensures { Printed (cell_text cell) at out.old result out.new }
{
    match cell {
        Some(v) => put_decimal(out, at, v),
        None => put_byte(out, at, b'-'),
    }
}

pub(crate) fn put_right(out: &mut [u8], at: usize, width: usize, cell: Option<u64>) -> usize
    requires { Room (right width (cell_text cell)) at out.old }
    ensures { Printed (right width (cell_text cell)) at out.old result out.new }
{
    let length = cell_length(cell);
    let next = put_spaces(out, at, width.saturating_sub(length));
    put_cell(out, next, cell)
}
