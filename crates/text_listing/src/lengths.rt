// How long a text is before it is printed, so that a reply can be asked first whether it has the room.
ghost use Rattle.std.specs.Prelude.{◌≡◌, ◌≤◌, ◌<◌, length};
ghost use Rattle.text_listing.specs.Digits.{decimal_text};
ghost use Rattle.text_listing.specs.Lines.{printed_r, LinesLength, ListingLength};

fn short_length(v: u64) -> usize
    requires { v < 10000 }
    ensures { result ≡ length (decimal_text v) }
{
    if v < 10 {
        return 1;
    }
    if v < 100 {
        return 2;
    }
    if v < 1000 {
        return 3;
    }
    4
}

fn middle_length(v: u64) -> usize
    requires { v < 100000000 }
    ensures { result ≡ length (decimal_text v) }
{
    if v < 10_000 {
        return short_length(v);
    }
    short_length(v / 10_000) + 4
}

// How many digits v has in decimal.
pub fn decimal_length(v: u64) -> usize
    ensures { result ≡ length (decimal_text v) }
{
    if v < 100_000_000 {
        return middle_length(v);
    }
    if v < 10_000_000_000_000_000 {
        return middle_length(v / 100_000_000) + 8;
    }
    short_length(v / 10_000_000_000_000_000) + 16
}

// The lines of n frames, whatever they hold: 13 bytes each, and one more for each further digit of an index.
fn lines_length(n: usize) -> usize
    requires { n ≤ 2048 }
    ensures { LinesLength n result }
{
    13 * n + n.saturating_sub(10) + n.saturating_sub(100) + n.saturating_sub(1000)
}

// A listing of n frames after `draw` draws.
pub fn listing_length(draw: u64, n: usize) -> usize
    requires { n ≤ 2048 }
    ensures { ListingLength draw n result }
{
    20 + decimal_length(draw) + lines_length(n)
}

// The line of a refusal.
pub fn refusal_length(number: u32) -> usize
    ensures { result ≡ length (printed_r number) }
{
    3 + decimal_length(number as u64)
}
