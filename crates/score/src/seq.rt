// What a score call is handed beside its notes and its lane.
use dsl::{Adsr, SeqVoice};
use tempo::TempoMap;

// The rate, and what says where notes stand. A tempo map with points takes the place of the tempo.
#[derive(Clone, Copy)]
pub struct Timing {
    pub rate: u32,
    pub tempo: f32,
    pub steps_per_beat: u32,
    pub tempo_map: TempoMap,
    pub swing: f32,
    pub humanize: f32,
}

// `Node::Seq` of the source, the rate, and the hop: a curve has a value each `hop` frames. The duty of a
// score is a number.
#[derive(Clone, Copy)]
pub struct Seq {
    pub timing: Timing,
    pub hop: u32,
    pub voice: SeqVoice,
    pub duty: f32,
    pub env: Adsr,
}

// How long the lent buffers are: the output, the note buffer and the string buffer.
#[derive(Clone, Copy)]
pub struct Lent {
    pub n: usize,
    pub room: usize,
    pub string: usize,
}
