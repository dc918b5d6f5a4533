// What a score call and a planning call are handed beside their station, notes and lane.
ghost use Rattle.std.specs.Prelude.{◌≡◌};
ghost use Rattle.raw_knobs.specs.Knobs.{voice_at, env_at};
ghost use Rattle.raw_call.specs.Raw.{whole_of, parts_with, seq_by};

use crate::sessions::whole;
use dsl::{Adsr, SeqVoice};
use raw_knobs::{env_at, voice_at};
use score::{Seq, Timing};

// The voice and the envelope of a call, or none where no call is made: where there are not eight seeds and counts, there
// is no such wave or style, there are not 22 knobs, 10 numbers of drawbars and 5 of an envelope, or the words of the
// points are no multiple of four.
pub fn parts_at(
    seeds: usize,
    counts: usize,
    points: usize,
    wave: u32,
    style: u32,
    knobs: &[f32],
    bars: &[f32],
    env: &[f32],
) -> Option<(SeqVoice, Adsr)>
    ensures { result ≡ parts_with (voice_at wave style knobs.now bars.now) (env_at env.now) (whole_of seeds counts points) }
{
    let voice = voice_at(wave, style, knobs, bars)?;
    let env = env_at(env)?;
    if !whole(seeds, counts, points) {
        return None;
    }
    Some((voice, env))
}

pub fn seq_of(
    rate: u32,
    tempo: f32,
    steps_per_beat: u32,
    points: &[u32],
    swing: f32,
    humanize: f32,
    hop: u32,
    voice: SeqVoice,
    duty: f32,
    env: Adsr,
) -> Seq
    ensures { result ≡ seq_by rate tempo steps_per_beat points.now swing humanize hop voice duty env }
{
    let timing = Timing {
        rate,
        tempo,
        steps_per_beat,
        tempo_map: raw_map::map_of(points),
        swing,
        humanize,
    };
    Seq {
        timing,
        hop,
        voice,
        duty,
        env,
    }
}
