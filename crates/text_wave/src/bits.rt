// The frames' bit patterns.
ghost use Rattle.std.specs.Prelude.{◌≡◌, ◌++◌, map, ◌≤◌, length, drop};
ghost use Rattle.text_listing.specs.Lines.{frame_bits};

use text_listing::frame_bits;

// The patterns of all frames at the start of `bits`.
pub(crate) fn put_bits(frames: &[f32], bits: &mut [u32])
    requires { length frames.now ≤ length bits.old }
    ensures { bits.new ≡ map frame_bits frames.now ++ drop (length frames.now) bits.old }
{
    // A range, not `enumerate`: the edit `first_frame_skipped` starts it at 1, and is refused by the invariant, not by a name.
    for i in 0..frames.len() {
        bits[i] = frame_bits(frames[i]);
    }
}

// Room for 2,048 patterns. The contract says only how long it is, since nothing that it first holds
// is ever read.
pub(crate) fn bits_buffer() -> [u32; 2048]
    ensures { 2048 ≡ length result }
{
    [0u32; 2048]
}
