// Bytes and numbers. A number's digits are written by straight-line code: those of its first half, then
// those of its last half.
ghost use Rattle.std.specs.Prelude.{◌≡◌, [], ◌∷◌, ◌<◌};
ghost use Rattle.text_listing.specs.Digits.{digit_for, last_digits, hex_text, decimal_text};
ghost use Rattle.text_listing.specs.Lines.{tabbed_text};
ghost use Rattle.text_listing.specs.Printed.{Room, Printed};

// The byte of a hexadecimal digit, without a branch: (v + 6) / 16 is 1 for a letter, whose byte stands 39
// further than the digits' go on.
fn hex_digit(v: u64) -> u8
    requires { v < 16 }
    ensures { result ≡ digit_for v }
{
    (v + 48 + (v + 6) / 16 * 39) as u8
}

// The byte of a decimal digit.
fn decimal_digit(v: u64) -> u8
    requires { v < 10 }
    ensures { result ≡ digit_for v }
{
    (v + 48) as u8
}

pub fn put_byte(out: &mut [u8], at: usize, b: u8) -> usize
    requires { Room (b ∷ []) at out.old }
    ensures { Printed (b ∷ []) at out.old result out.new }
{
    out[at] = b;
    at + 1
}

// The last 2, 4, 8 and 16 hexadecimal digits of v.
fn put_hex_2(out: &mut [u8], at: usize, v: u64) -> usize
    requires { Room (hex_text 2 v) at out.old }
    ensures { Printed (hex_text 2 v) at out.old result out.new }
{
    let next = put_byte(out, at, hex_digit(v / 16 % 16));
    put_byte(out, next, hex_digit(v % 16))
}

fn put_hex_4(out: &mut [u8], at: usize, v: u64) -> usize
    requires { Room (hex_text 4 v) at out.old }
    ensures { Printed (hex_text 4 v) at out.old result out.new }
{
    let next = put_hex_2(out, at, v / 256);
    put_hex_2(out, next, v)
}

pub fn put_hex_8(out: &mut [u8], at: usize, v: u64) -> usize
    requires { Room (hex_text 8 v) at out.old }
    ensures { Printed (hex_text 8 v) at out.old result out.new }
{
    let next = put_hex_4(out, at, v / 0x1_0000);
    put_hex_4(out, next, v)
}

pub fn put_hex_16(out: &mut [u8], at: usize, v: u64) -> usize
    requires { Room (hex_text 16 v) at out.old }
    ensures { Printed (hex_text 16 v) at out.old result out.new }
{
    let next = put_hex_8(out, at, v / 0x1_0000_0000);
    put_hex_8(out, next, v)
}

// The last 2, 4, 8 and 16 decimal digits of v. They stand beside the hexadecimal ones, since each divides by
// constants of its own base, and no const argument is computed from another.
fn put_decimal_2(out: &mut [u8], at: usize, v: u64) -> usize
    requires { Room (last_digits 10 2 v) at out.old }
    ensures { Printed (last_digits 10 2 v) at out.old result out.new }
{
    let next = put_byte(out, at, decimal_digit(v / 10 % 10));
    put_byte(out, next, decimal_digit(v % 10))
}

fn put_decimal_4(out: &mut [u8], at: usize, v: u64) -> usize
    requires { Room (last_digits 10 4 v) at out.old }
    ensures { Printed (last_digits 10 4 v) at out.old result out.new }
{
    let next = put_decimal_2(out, at, v / 100);
    put_decimal_2(out, next, v)
}

fn put_decimal_8(out: &mut [u8], at: usize, v: u64) -> usize
    requires { Room (last_digits 10 8 v) at out.old }
    ensures { Printed (last_digits 10 8 v) at out.old result out.new }
{
    let next = put_decimal_4(out, at, v / 10_000);
    put_decimal_4(out, next, v)
}

fn put_decimal_16(out: &mut [u8], at: usize, v: u64) -> usize
    requires { Room (last_digits 10 16 v) at out.old }
    ensures { Printed (last_digits 10 16 v) at out.old result out.new }
{
    let next = put_decimal_8(out, at, v / 100_000_000);
    put_decimal_8(out, next, v)
}

// v in decimal, of at most four digits: as an index of a text score has.
fn put_short(out: &mut [u8], at: usize, v: u64) -> usize
    requires v_bound { v < 10000 }
    requires room { Room (decimal_text v) at out.old }
    ensures { Printed (decimal_text v) at out.old result out.new }
{
    if v < 10 {
        return put_byte(out, at, decimal_digit(v));
    }
    if v < 100 {
        return put_decimal_2(out, at, v);
    }
    if v < 1000 {
        let next = put_byte(out, at, decimal_digit(v / 100));
        return put_decimal_2(out, next, v);
    }
    put_decimal_4(out, at, v)
}

// v in decimal, of at most eight digits.
fn put_middle(out: &mut [u8], at: usize, v: u64) -> usize
    requires v_bound { v < 100000000 }
    requires room { Room (decimal_text v) at out.old }
    ensures { Printed (decimal_text v) at out.old result out.new }
{
    if v < 10_000 {
        return put_short(out, at, v);
    }
    let next = put_short(out, at, v / 10_000);
    put_decimal_4(out, next, v)
}

// v in decimal: its first digits, and where it has more than 8 or 16 of them, the last 8 or 16.
pub fn put_decimal(out: &mut [u8], at: usize, v: u64) -> usize
    requires { Room (decimal_text v) at out.old }
    ensures { Printed (decimal_text v) at out.old result out.new }
{
    if v < 100_000_000 {
        return put_middle(out, at, v);
    }
    if v < 10_000_000_000_000_000 {
        let next = put_middle(out, at, v / 100_000_000);
        return put_decimal_8(out, next, v);
    }
    let next = put_short(out, at, v / 10_000_000_000_000_000);
    put_decimal_16(out, next, v)
}

// A tab and 8 hexadecimal digits. Three functions, since the two lines that they share are shorter than a
// closure or a trait that says which number follows the tab.
pub(crate) fn put_hex_8_field(out: &mut [u8], at: usize, v: u64) -> usize
    requires { Room (tabbed_text (hex_text 8 v)) at out.old }
    ensures { Printed (tabbed_text (hex_text 8 v)) at out.old result out.new }
{
    let next = put_byte(out, at, b'\t');
    put_hex_8(out, next, v)
}

// A tab and 16 hexadecimal digits.
pub(crate) fn put_hex_16_field(out: &mut [u8], at: usize, v: u64) -> usize
    requires { Room (tabbed_text (hex_text 16 v)) at out.old }
    ensures { Printed (tabbed_text (hex_text 16 v)) at out.old result out.new }
{
    let next = put_byte(out, at, b'\t');
    put_hex_16(out, next, v)
}

// A tab and a decimal number.
pub(crate) fn put_decimal_field(out: &mut [u8], at: usize, v: u64) -> usize
    requires { Room (tabbed_text (decimal_text v)) at out.old }
    ensures { Printed (tabbed_text (decimal_text v)) at out.old result out.new }
{
    let next = put_byte(out, at, b'\t');
    put_decimal(out, next, v)
}
