// Where a text is read to.
ghost use Rattle.std.specs.Prelude.{◌≡◌, length};

// N bytes. The contract says only how long the buffer is, since nothing that it first holds is ever read: a
// caller's proof then has no list of so many values.
pub fn buffer<const N: usize>() -> [u8; N]
    ensures { N ≡ length result }
{
    [0u8; N]
}
