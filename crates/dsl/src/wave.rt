// The waves of a score.
ghost use Rattle.std.specs.Prelude.{◌≡◌};
ghost use Rattle.dsl.specs.Wave.{wave_at};

// In the source's order, without Sampler, which is the last.
#[derive(Clone, Copy)]
pub enum SeqWave {
    Square,
    Triangle,
    Sawtooth,
    Sine,
    Noise,
    Fm,
    Pluck,
    Piano,
    Epiano,
    Organ,
    Strings,
    Brass,
    Flute,
    Mallet,
    Bell,
    Bass,
    Kit,
    Cowbell,
}

impl SeqWave {
    // The wave at a place of the source's order, counted from 0.
    pub fn at(place: u32) -> Option<SeqWave>
        ensures { result ≡ wave_at place }
    {
        match place {
            0 => Some(SeqWave::Square),
            1 => Some(SeqWave::Triangle),
            2 => Some(SeqWave::Sawtooth),
            3 => Some(SeqWave::Sine),
            4 => Some(SeqWave::Noise),
            5 => Some(SeqWave::Fm),
            6 => Some(SeqWave::Pluck),
            7 => Some(SeqWave::Piano),
            8 => Some(SeqWave::Epiano),
            9 => Some(SeqWave::Organ),
            10 => Some(SeqWave::Strings),
            11 => Some(SeqWave::Brass),
            12 => Some(SeqWave::Flute),
            13 => Some(SeqWave::Mallet),
            14 => Some(SeqWave::Bell),
            15 => Some(SeqWave::Bass),
            16 => Some(SeqWave::Kit),
            17 => Some(SeqWave::Cowbell),
            _ => None,
        }
    }
}
