// `seq_note_signal` of render/seq.rs below its refusals: the samples of a note before its envelope, by
// the voice that its wave picks.
#![tactic(auto)]

ghost use Rattle.std.specs.Prelude.{◌≡◌, ◌<◌, ◌≤◌, length, drop};
ghost use Rattle.dsl.specs.Domain.{Rate, Frames};
ghost use Rattle.dsl.specs.Pitch.{pitch_at, reaches};
ghost use Rattle.rng.specs.SplitMix64.{state_after};
ghost use Rattle.draws.specs.Draws.{draws_of};
ghost use Rattle.voice.specs.Voice.{note_frames};

use dsl::{Reading, SeqVoice, SeqWave};
use rng::Rng;

// Fills `out`, and hands back the generator after the note's draws. Of `string` only the first 9,600
// values are used.
pub fn voice_note(
    rng: Rng,
    rate: u32,
    voice: SeqVoice,
    gain: f32,
    pitch: Reading,
    lane: &[f32],
    duty: Reading,
    duties: &[f32],
    out: &mut [f32],
    string: &mut [f32],
) -> Rng
    requires rate { Rate rate }
    requires out_nonzero { 0 < length out.old }
    requires frames { Frames (length out.old) }
    requires in_bounds { 9600 ≤ length string.old }
    requires reaches { reaches pitch (length lane.now) (length out.old) }
    requires reaches_2 { reaches duty (length duties.now) (length out.old) }
    ensures result_value { result.0 ≡ state_after rng.0 (draws_of voice.wave voice.kit rate (pitch_at pitch lane.now 0) (length out.old)) }
    ensures out_after { out.new ≡ note_frames rate voice gain (pitch_at pitch lane.now) (pitch_at duty duties.now) rng.0 (length out.old) }
    ensures string_unchanged { drop 9600 string.new ≡ drop 9600 string.old }
{
    let srf = std::num::nearest_u32_to_f32(rate);
    let wave = voice.wave;
    match wave {
        SeqWave::Square => voice_waves::square(pitch, lane, duty, duties, srf, out),
        SeqWave::Triangle => voice_waves::triangle(pitch, lane, srf, out),
        SeqWave::Sawtooth => voice_waves::sawtooth(pitch, lane, srf, out),
        SeqWave::Sine => voice_waves::sine(pitch, lane, srf, out),
        SeqWave::Noise => return voice_noise::noise(rng, out),
        SeqWave::Fm => voice_waves::fm(pitch, lane, voice.fm, gain, srf, out),
        SeqWave::Pluck => {
            return voice_pluck::pluck_note(voice.pluck, pitch, lane, rate, rng, string, out);
        }
        SeqWave::Piano => {
            return voice_piano::piano_note(voice.piano, gain, pitch, lane, rate, rng, out);
        }
        SeqWave::Epiano => voice_epiano::epiano_note(pitch, lane, gain, srf, out),
        SeqWave::Organ => voice_organ::organ_note(voice.bars, pitch, lane, srf, out),
        SeqWave::Strings => voice_strings::strings_note(pitch, lane, srf, out),
        SeqWave::Brass => voice_brass::brass_note(pitch, lane, gain, srf, out),
        SeqWave::Flute => return voice_flute::flute_note(pitch, lane, gain, srf, rng, out),
        SeqWave::Mallet => voice_mallet::mallet_note(pitch, lane, gain, srf, out),
        SeqWave::Bell => voice_bell::bell_note(pitch, lane, srf, out),
        SeqWave::Bass => voice_bass::bass_note(pitch, lane, voice.bass, gain, srf, out),
        SeqWave::Kit => {
            let style = voice.kit;
            return kit::kit_drum(style, pitch.at(lane, 0), rate, rng, out);
        }
        SeqWave::Cowbell => voice_cowbell::cowbell(pitch, lane, srf, out),
    }
    rng
}
