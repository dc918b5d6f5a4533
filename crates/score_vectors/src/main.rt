// Replays score calls whose answers the original gave. A line of standard input is
//   open S0 D0 S1 D1 .. S7 D7
// which opens a session, of the seed and the draw count of each station, or a call on it:
//   score RATE TEMPO STEPS-PER-BEAT SWING HUMANIZE WAVE DUTY N NOTE-BUFFER STRING, then how many
//   knobs, envelope numbers, note words, lane values and words of tempo points there are, then HOP,
//   STATION, how many numbers of drawbars there are and STYLE, and these; the drawbars follow the knobs
// The states of a session's eight generators are appended, or a call's number, its draws, the state of its
// station's generator, the session's eight counts after it and the frames. The state is 0 where no call is
// made or there is no such station.
#![tactic(auto)]

ghost use Rattle.std.specs.Prelude.{◌≤◌};
ghost use Rattle.programs.specs.Streams.{Grows};

use dsl::{Adsr, SeqVoice};
use outcome::Refusal;
use score::{Seq, Timing};
use session::Session;
use std::io;
use std::io::{BufWriter, Write};
use tempo::TempoMap;

// How many values of a kind a line can have, and how many words of tempo points.
const MOST: usize = 64;

const MOST_POINTS: usize = 264;

const STATIONS: usize = 8;

// What the draws hold before a call, and after one that is not made.
const DRAWS_BEFORE: u64 = 0x5555;

fn voice_of(line: &[u8]) -> Option<SeqVoice> {
    let count = vectors::length_field(line, 11, MOST);
    let bar_count = vectors::length_field(line, 18, MOST);
    let wave = vectors::u32_field(line, 6);
    let style = vectors::u32_field(line, 19);
    let values = vectors::numbers::<f32, MOST>(line, 20);
    let bars = vectors::numbers::<f32, MOST>(line, 20 + count);
    raw_knobs::voice_at(wave, style, &values[..count], &bars[..bar_count])
}

fn env_of(line: &[u8]) -> Option<Adsr> {
    let from = 20 + vectors::length_field(line, 11, MOST) + vectors::length_field(line, 18, MOST);
    let count = vectors::length_field(line, 12, MOST);
    let values = vectors::numbers::<f32, MOST>(line, from);
    raw_knobs::env_at(&values[..count])
}

// The points follow all other values.
fn map_of(line: &[u8]) -> TempoMap {
    let from = 20
        + vectors::length_field(line, 11, MOST)
        + vectors::length_field(line, 18, MOST)
        + vectors::length_field(line, 12, MOST)
        + vectors::length_field(line, 13, MOST)
        + vectors::length_field(line, 14, MOST);
    let count = vectors::length_field(line, 15, MOST_POINTS);
    let values = vectors::numbers::<u32, MOST_POINTS>(line, from);
    raw_map::map_of(&values[..count])
}

fn seq_of(line: &[u8], voice: SeqVoice, env: Adsr) -> Seq {
    let timing = Timing {
        rate: vectors::u32_field(line, 1),
        tempo: vectors::f32_field(line, 2),
        steps_per_beat: vectors::u32_field(line, 3),
        tempo_map: map_of(line),
        swing: vectors::f32_field(line, 4),
        humanize: vectors::f32_field(line, 5),
    };
    Seq {
        timing,
        hop: vectors::u32_field(line, 16),
        voice,
        duty: vectors::f32_field(line, 7),
        env,
    }
}

fn print_outcome<W: Write>(writer: &mut W, outcome: Result<u64, Refusal>) -> io::Result<()>
    ensures { Grows (W.contents writer.old) (W.contents writer.new) }
{
    match outcome {
        Ok(draws) => {
            vectors::print_u64(writer, 0)?;
            vectors::print_u64(writer, draws)?;
        }
        Err(refusal) => {
            vectors::print_u64(writer, refusal.number() as u64)?;
            vectors::print_u64(writer, 0)?;
        }
    }
    Ok(())
}

fn print_counts<W: Write>(writer: &mut W, session: Session) -> io::Result<()>
    ensures { Grows (W.contents writer.old) (W.contents writer.new) }
{
    vectors::print_values(writer, &session.draws)
}

// The frames before a call: ones, where a call without notes leaves zeros.
fn frames() -> [f32; 64] {
    [1.0f32; 64]
}

// The session after the call.
fn call<W: Write>(
    writer: &mut W,
    line: &[u8],
    session: Session,
    seq: Seq,
    notes: &[u32],
    lane: &[f32],
) -> io::Result<Session>
    ensures { Grows (W.contents writer.old) (W.contents writer.new) }
{
    let n = vectors::length_field(line, 8, 64);
    let note_len = vectors::length_field(line, 9, 80);
    let string_len = vectors::length_field(line, 10, 9616);
    let mut out = frames();
    let mut note_buf = [0.0f32; 80];
    let mut string = [0.0f32; 9616];
    let answer = seq::render_seq(
        session,
        vectors::u32_field(line, 17),
        seq,
        notes,
        lane,
        &mut out[..n],
        &mut note_buf[..note_len],
        &mut string[..string_len],
    );
    let outcome = answer.outcome;
    let rng = answer.rng;
    let after = answer.session;
    print_outcome(writer, outcome)?;
    vectors::print_u64(writer, rng.state())?;
    print_counts(writer, after)?;
    vectors::print_values(writer, &out[..n])?;
    Ok(after)
}

// The session after the call with the line's notes and lane, which follow knobs, drawbars and envelope.
fn score<W: Write>(writer: &mut W, line: &[u8], session: Session, seq: Seq) -> io::Result<Session>
    ensures { Grows (W.contents writer.old) (W.contents writer.new) }
{
    let word_count = vectors::length_field(line, 13, MOST);
    let lane_count = vectors::length_field(line, 14, MOST);
    let words_at = 20
        + vectors::length_field(line, 11, MOST)
        + vectors::length_field(line, 18, MOST)
        + vectors::length_field(line, 12, MOST);
    let notes = vectors::numbers::<u32, MOST>(line, words_at);
    let lane = vectors::numbers::<f32, MOST>(line, words_at + word_count);
    call(
        writer,
        line,
        session,
        seq,
        &notes[..word_count],
        &lane[..lane_count],
    )
}

// Where there is no such voice, envelope or list of points, no call is made and nothing changes.
fn no_call<W: Write>(writer: &mut W, line: &[u8], session: Session) -> io::Result<Session>
    ensures { Grows (W.contents writer.old) (W.contents writer.new) }
{
    vectors::print_u64(writer, u32::MAX as u64)?;
    vectors::print_u64(writer, DRAWS_BEFORE)?;
    vectors::print_u64(writer, 0)?;
    print_counts(writer, session)?;
    vectors::print_values(writer, &frames()[..vectors::length_field(line, 8, 64)])?;
    Ok(session)
}

fn score_line<W: Write>(writer: &mut W, line: &[u8], session: Session) -> io::Result<Session>
    ensures { Grows (W.contents writer.old) (W.contents writer.new) }
{
    let Some(voice) = voice_of(line) else {
        return no_call(writer, line, session);
    };
    let Some(env) = env_of(line) else {
        return no_call(writer, line, session);
    };
    if vectors::u32_field(line, 15) % 4 != 0 {
        return no_call(writer, line, session);
    }
    score(writer, line, session, seq_of(line, voice, env))
}

// Every second number of the eight pairs, from the pairs' field `from` on.
fn each_second(line: &[u8], from: usize) -> [u64; 8]
    requires { from ≤ 2 }
{
    let mut out = [0u64; 8];
    for (k, x) in out.iter_mut().enumerate() {
        *x = vectors::u64_field(line, from + 2 * k);
    }
    out
}

fn print_states<W: Write>(writer: &mut W, session: Session) -> io::Result<()>
    ensures { Grows (W.contents writer.old) (W.contents writer.new) }
{
    for k in 0..STATIONS {
        let station = session.station(k);
        let rng = station.rng;
        vectors::print_u64(writer, rng.state())?;
    }
    Ok(())
}

fn open<W: Write>(writer: &mut W, line: &[u8]) -> io::Result<Session>
    ensures { Grows (W.contents writer.old) (W.contents writer.new) }
{
    let session = Session {
        seeds: each_second(line, 1),
        draws: each_second(line, 2),
    };
    print_states(writer, session)?;
    Ok(session)
}

// The session after the line, which is answered.
fn answer_line<W: Write>(writer: &mut W, line: &[u8], session: Session) -> io::Result<Session>
    ensures { Grows (W.contents writer.old) (W.contents writer.new) }
{
    vectors::print_text(writer, line)?;
    if vectors::is_named(line, b"open") {
        return open(writer, line);
    }
    score_line(writer, line, session)
}

fn replay_line<W: Write>(writer: &mut W, line: &[u8], session: Session) -> io::Result<Session>
    ensures { Grows (W.contents writer.old) (W.contents writer.new) }
{
    let after = answer_line(writer, line, session)?;
    vectors::print_text(writer, b"\n")?;
    Ok(after)
}

fn main(rt: HostRuntime) -> io::Result<()> {
    let mut text = vectors::buffer::<524288>();
    let n = vectors::read_full(&mut rt.stdin(), &mut text)?;
    let mut writer = BufWriter::new(rt.alloc(), rt.stdout())?;
    let mut session = Session::open(0, 0);
    vectors::replay_lines(&mut writer, &text[..n], |writer, line| {
        session = replay_line(writer, line, session)?;
        Ok(())
    })?;
    writer.flush()
}
