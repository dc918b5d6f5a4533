// The buffers of a text call. A contract says only how long a buffer is, since nothing that it first
// holds is ever read.
ghost use Rattle.std.specs.Prelude.{◌≡◌, length};

// The words of 256 notes.
pub fn words_buffer() -> [u32; 1280]
    ensures { 1280 ≡ length result }
{
    [0u32; 1280]
}

// Frames, or a note's samples: n is at most 2,048.
pub fn frames_buffer() -> [f32; 2048]
    ensures { 2048 ≡ length result }
{
    [0.0f32; 2048]
}

pub fn string_buffer() -> [f32; 9600]
    ensures { 9600 ≡ length result }
{
    [0.0f32; 9600]
}
