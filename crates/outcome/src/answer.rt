// Why a call is refused. The numbers of the refusals are `number_of` of specs/Answer.
ghost use Rattle.std.specs.Prelude.{◌≡◌};
ghost use Rattle.outcome.specs.Answer.{number_of};

#[derive(Clone, Copy)]
pub enum Refusal {
    NoStation,
    Rate,
    Frames,
    Tempo,
    StepsPerBeat,
    Tone,
    TempoPoints,
    TempoOrder,
    Groove,
    Knobs,
    Hop,
    Words,
    Kind,
    Steps,
    Size,
    Lane,
    Reach,
    NoPitch,
    Lengths,
    NoteBuffer,
    StringBuffer,
    Draws,
}

impl Refusal {
    pub fn number(self) -> u32
        ensures { result ≡ number_of self }
    {
        match self {
            Refusal::NoStation => 33,
            Refusal::Rate => 1,
            Refusal::Frames => 2,
            Refusal::Tempo => 3,
            Refusal::StepsPerBeat => 4,
            Refusal::Tone => 30,
            Refusal::TempoPoints => 31,
            Refusal::TempoOrder => 32,
            Refusal::Groove => 5,
            Refusal::Knobs => 6,
            Refusal::Hop => 35,
            Refusal::Words => 7,
            Refusal::Kind => 8,
            Refusal::Steps => 9,
            Refusal::Size => 10,
            Refusal::Lane => 11,
            Refusal::Reach => 12,
            Refusal::NoPitch => 13,
            Refusal::Lengths => 14,
            Refusal::NoteBuffer => 20,
            Refusal::StringBuffer => 21,
            Refusal::Draws => 22,
        }
    }
}
