// The score call.
ghost use Rattle.score_contract.specs.SessionCall.{SessionScored};

use crate::station::render_station;
use score::Seq;
use session::{Answer, Session};

// Fills `out` with a score, played on the station that the call names, and answers how many draws it made and the
// session after them. `notes` has five words a note, and the curves of pitches are parts of `lane`. An accepted call
// uses as many values of `note_buf` as `out` has, and the first 9,600 of `string`; a refused call changes nothing.
pub fn render_seq(
    session: Session,
    station: u32,
    seq: Seq,
    notes: &[u32],
    lane: &[f32],
    out: &mut [f32],
    note_buf: &mut [f32],
    string: &mut [f32],
) -> Answer
    ensures { SessionScored session (record {
      station = station;
      seq = seq;
      notes = notes.now;
      lane = lane.now;
      out₀ = out.old;
      buffer₀ = note_buf.old;
      string₀ = string.old;
      answer = result;
      out = out.new;
      buffer = note_buf.new;
      string = string.new;
    }) }
{
    let Some(one) = session.named(station) else {
        return session.no_station();
    };
    let answer = render_station(one, seq, notes, lane, out, note_buf, string);
    session.answered(station, answer)
}
