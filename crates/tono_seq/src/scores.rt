// The score call from numbers and slices.
ghost use Rattle.tono_seq.specs.Score.{ScoreExported};

use raw_call::{draws_of, number_of, parts_at, put_count, seq_of, session_of};

// 0 where the call is accepted, else the refusal's number. `seeds` and `counts` are the session's, eight of each; the
// count of the station that is named changes with an accepted call, and nothing else of them.
// `draws` gets the draws made, 0 for a refusal. `points` has four words a tempo point: the numerator's low
// and high word, the denominator, the tempo's bits. `bars` has the drawbars, ratio before level. `style` is the
// place of the kit's style, whatever the wave. Where `parts_at` finds nothing, the answer is 4294967295 and nothing
// changes.
pub fn render_seq(
    seeds: &[u64],
    counts: &mut [u64],
    draws: &mut u64,
    station: u32,
    rate: u32,
    tempo: f32,
    steps_per_beat: u32,
    points: &[u32],
    swing: f32,
    humanize: f32,
    hop: u32,
    wave: u32,
    style: u32,
    duty: f32,
    knobs: &[f32],
    bars: &[f32],
    env: &[f32],
    notes: &[u32],
    lane: &[f32],
    out: &mut [f32],
    note_buf: &mut [f32],
    string: &mut [f32],
) -> u32
    ensures { ScoreExported (record {
      raw = record {
        seeds = seeds.entry.now;
        counts = counts.old;
        rate = rate;
        tempo = tempo;
        steps_per_beat = steps_per_beat;
        points = points.now;
        swing = swing;
        humanize = humanize;
        hop = hop;
        wave = wave;
        style = style;
        duty = duty;
        knobs = knobs.now;
        bars = bars.now;
        env = env.now;
      };
      station = station;
      notes = notes.now;
      lane = lane.now;
      counts = counts.new;
      buffer₀ = note_buf.old;
      buffer = note_buf.new;
      places = record {
        number = result;
        draws₀ = draws.old;
        draws = draws.new;
        out₀ = out.old;
        out = out.new;
        string₀ = string.old;
        string = string.new;
      };
    }) }
{
    let Some((voice, env)) = parts_at(
        seeds.len(),
        counts.len(),
        points.len(),
        wave,
        style,
        knobs,
        bars,
        env,
    ) else {
        return u32::MAX;
    };
    let seq = seq_of(
        rate,
        tempo,
        steps_per_beat,
        points,
        swing,
        humanize,
        hop,
        voice,
        duty,
        env,
    );
    let held = &counts[..8];
    let session = session_of(seeds, held);
    let answer = seq::render_seq(session, station, seq, notes, lane, out, note_buf, string);
    let after = answer.session;
    let outcome = answer.outcome;
    put_count(counts, station, after);
    *draws = draws_of(outcome);
    number_of(outcome)
}
