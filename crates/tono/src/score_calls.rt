// Whole scores from C: the score call and the planning call.
ghost use Rattle.raw_plan.specs.Plan.{PlanExported};
ghost use Rattle.tono_seq.specs.Score.{ScoreExported};

// Plays a score on a station of a session. 0 where the call is accepted, else the refusal's number.
// Where there are not eight seeds and counts, 22 knobs, 10 numbers of drawbars and 5 of an envelope, `points` is no multiple
// of four, or there is no such wave or style, the answer is 4294967295 and nothing changes.
#[unsafe(no_mangle)]
pub extern "C" fn tono_render_seq(
    seeds: &[u64],
    counts: &mut [u64],
    draws: &mut u64,
    station: u32,
    rate: u32,
    tempo: f32,
    steps_per_beat: u32,
    points: &[u32],
    swing: f32,
    humanize: f32,
    hop: u32,
    wave: u32,
    style: u32,
    duty: f32,
    knobs: &[f32],
    bars: &[f32],
    env: &[f32],
    notes: &[u32],
    lane: &[f32],
    out: &mut [f32],
    note_buf: &mut [f32],
    string: &mut [f32],
) -> u32
    ensures { ScoreExported (record {
      raw = record {
        seeds = seeds.entry.now;
        counts = counts.old;
        rate = rate;
        tempo = tempo;
        steps_per_beat = steps_per_beat;
        points = points.now;
        swing = swing;
        humanize = humanize;
        hop = hop;
        wave = wave;
        style = style;
        duty = duty;
        knobs = knobs.now;
        bars = bars.now;
        env = env.now;
      };
      station = station;
      notes = notes.now;
      lane = lane.now;
      counts = counts.new;
      buffer₀ = note_buf.old;
      buffer = note_buf.new;
      places = record {
        number = result;
        draws₀ = draws.old;
        draws = draws.new;
        out₀ = out.old;
        out = out.new;
        string₀ = string.old;
        string = string.new;
      };
    }) }
{
    tono_seq::render_seq(
        seeds,
        counts,
        draws,
        station,
        rate,
        tempo,
        steps_per_beat,
        points,
        swing,
        humanize,
        hop,
        wave,
        style,
        duty,
        knobs,
        bars,
        env,
        notes,
        lane,
        out,
        note_buf,
        string,
    )
}

// The draws that `tono_render_seq` would make with an output of n frames: 0 where it would be accepted, else the refusal's
// number. The session stays as it is.
// Where there are not eight seeds and counts, 22 knobs, 10 numbers of drawbars and 5 of an envelope, `points` is no multiple
// of four, or there is no such wave or style, the answer is 4294967295 and nothing changes.
#[unsafe(no_mangle)]
pub extern "C" fn tono_planned_draws(
    seeds: &[u64],
    counts: &[u64],
    draws: &mut u64,
    station: u32,
    rate: u32,
    tempo: f32,
    steps_per_beat: u32,
    points: &[u32],
    swing: f32,
    humanize: f32,
    hop: u32,
    wave: u32,
    style: u32,
    duty: f32,
    knobs: &[f32],
    bars: &[f32],
    env: &[f32],
    notes: &[u32],
    lane: &[f32],
    n: usize,
) -> u32
    ensures { PlanExported (record {
      raw = record {
        seeds = seeds.entry.now;
        counts = counts.now;
        rate = rate;
        tempo = tempo;
        steps_per_beat = steps_per_beat;
        points = points.now;
        swing = swing;
        humanize = humanize;
        hop = hop;
        wave = wave;
        style = style;
        duty = duty;
        knobs = knobs.now;
        bars = bars.now;
        env = env.now;
      };
      station = station;
      notes = notes.now;
      lane = lane.now;
      n = n;
      number = result;
      draws₀ = draws.old;
      draws = draws.new;
    }) }
{
    raw_plan::planned_draws(
        seeds,
        counts,
        draws,
        station,
        rate,
        tempo,
        steps_per_beat,
        points,
        swing,
        humanize,
        hop,
        wave,
        style,
        duty,
        knobs,
        bars,
        env,
        notes,
        lane,
        n,
    )
}
