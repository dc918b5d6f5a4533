// The planning call from numbers and slices.
#![tactic(auto)]

ghost use Rattle.raw_plan.specs.Plan.{PlanExported};

use raw_call::{draws_of, number_of, parts_at, seq_of, session_of};

// As `tono_seq::render_seq`, with the n frames of its output as a number and no buffers: 0 where the call is accepted, else the
// refusal's number. `draws` gets the total, 0 for a refusal. Where `parts_at` finds nothing, the answer is 4294967295 and
// nothing changes.
pub fn planned_draws(
    seeds: &[u64],
    counts: &[u64],
    draws: &mut u64,
    station: u32,
    rate: u32,
    tempo: f32,
    steps_per_beat: u32,
    points: &[u32],
    swing: f32,
    humanize: f32,
    hop: u32,
    wave: u32,
    style: u32,
    duty: f32,
    knobs: &[f32],
    bars: &[f32],
    env: &[f32],
    notes: &[u32],
    lane: &[f32],
    n: usize,
) -> u32
    ensures { PlanExported (record {
      raw = record {
        seeds = seeds.entry.now;
        counts = counts.now;
        rate = rate;
        tempo = tempo;
        steps_per_beat = steps_per_beat;
        points = points.now;
        swing = swing;
        humanize = humanize;
        hop = hop;
        wave = wave;
        style = style;
        duty = duty;
        knobs = knobs.now;
        bars = bars.now;
        env = env.now;
      };
      station = station;
      notes = notes.now;
      lane = lane.now;
      n = n;
      number = result;
      draws₀ = draws.old;
      draws = draws.new;
    }) }
{
    let Some((voice, env)) = parts_at(
        seeds.len(),
        counts.len(),
        points.len(),
        wave,
        style,
        knobs,
        bars,
        env,
    ) else {
        return u32::MAX;
    };
    let seq = seq_of(
        rate,
        tempo,
        steps_per_beat,
        points,
        swing,
        humanize,
        hop,
        voice,
        duty,
        env,
    );
    let session = session_of(seeds, counts);
    let answer = plan::planned_draws(session, station, seq, notes, lane, n);
    let outcome = answer.outcome;
    *draws = draws_of(outcome);
    number_of(outcome)
}
