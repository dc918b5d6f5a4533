// The score call on one station.
ghost use Rattle.score_contract.specs.ScoreCall.{Scored};

use outcome::Refusal;
use score::{Lent, Seq};
use score_notes::play_counted;
use session::{Station, StationAnswer};

// Fills `out` with a score, and answers how many draws it made and the station after them: its generator as the
// last note left it, and its count with the draws of the notes, added up as they were played.
pub(crate) fn render_station(
    station: Station,
    seq: Seq,
    notes: &[u32],
    lane: &[f32],
    out: &mut [f32],
    note_buf: &mut [f32],
    string: &mut [f32],
) -> StationAnswer
    ensures { Scored station (record {
      seq = seq;
      notes = notes.now;
      lane = lane.now;
      out₀ = out.old;
      buffer₀ = note_buf.old;
      string₀ = string.old;
      answer = result;
      out = out.new;
      buffer = note_buf.new;
      string = string.new;
    }) }
{
    let lent = Lent {
        n: out.len(),
        room: note_buf.len(),
        string: string.len(),
    };
    if let Err(r) = score_verdict::score_verdict(seq, notes, lane, lent) {
        return StationAnswer {
            station,
            outcome: Err(r),
        };
    }
    let draw = station.draw;
    if !score_draws::draws_fit(seq, notes, lane, lent, u64::MAX - draw) {
        return StationAnswer {
            station,
            outcome: Err(Refusal::Draws),
        };
    }
    let from = station.rng;
    let played = play_counted(from, seq, notes, lane, lent, out, note_buf, string);
    let rng = played.rng;
    let d = played.draws;
    let count = draw + d;
    let after = Station { rng, draw: count };
    StationAnswer {
        station: after,
        outcome: Ok(d),
    }
}
