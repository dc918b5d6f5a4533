// The names of chunks, as the little-endian numbers of their four letters.
pub const RIFF: u32 = 0x4646_4952;

pub const WAVE: u32 = 0x4556_4157;

pub const FMT: u32 = 0x2074_6d66; // its fourth letter is a space

pub const FACT: u32 = 0x7463_6166;

pub const DATA: u32 = 0x6174_6164;
