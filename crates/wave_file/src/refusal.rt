// Why a file is neither written nor read.
ghost use Rattle.std.specs.Prelude.{◌≡◌};
ghost use Rattle.wave_file.specs.Refusal.{number_of};

#[derive(Clone, Copy)]
pub enum FileRefusal {
    Rate, // writing: outside 8,000 to 192,000
    Frames, // writing: more than 16,777,216 samples
    Room, // the lent file or sample buffer is too short
    Format, // reading: another tag, channel count or sample width
    Structure, // reading: not the chunks of a WAVE file
}

impl FileRefusal {
    pub fn number(self) -> u32
        ensures { result ≡ number_of self }
    {
        match self {
            FileRefusal::Rate => 1,
            FileRefusal::Frames => 2,
            FileRefusal::Room => 23,
            FileRefusal::Format => 36,
            FileRefusal::Structure => 37,
        }
    }
}
