// Bytes one after the other.
ghost use Rattle.std.specs.Prelude.{◌<◌, replicate};
ghost use Rattle.text_listing.specs.Printed.{Room, Printed};

pub(crate) fn put_bytes(out: &mut [u8], start: usize, text: &[u8]) -> usize
    requires { Room text.now start out.old }
    ensures { Printed text.now start out.old result out.new }
{
    let end = start + text.len();
    out[start..end].copy_from_slice(text);
    end
}

pub(crate) fn put_spaces(out: &mut [u8], start: usize, count: usize) -> usize
    requires { Room (replicate count 32) start out.old }
    ensures { Printed (replicate count 32) start out.old result out.new }
{
    let end = start + count;
    out[start..end].fill(b' ');
    end
}
