// The C calls: what a rig's host links, by the static library `tono_c`.
#![tactic(auto)]

mod sheet_call; // sheet_call.rt: tono_cue_sheet
mod exponential; // exponential.rt: tono_exp
mod note_call; // note_call.rt: tono_note
mod plan_call; // plan_call.rt: tono_plan
mod score_calls; // score_calls.rt: tono_render_seq, tono_planned_draws
mod wave_calls; // wave_calls.rt: the calls on WAVE files

ghost use Rattle.tono.specs.Answered.{Answered};

pub use exponential::tono_exp;
pub use note_call::tono_note;
pub use plan_call::tono_plan;
pub use score_calls::{tono_planned_draws, tono_render_seq};
pub use sheet_call::tono_cue_sheet;
pub use wave_calls::{tono_wave_read, tono_wave_write};

// Writes the listing of the text score `score` at the start of `reply`, and returns its length in
// bytes. Where the reply is shorter than the listing it returns -23, and no byte changes.
#[unsafe(no_mangle)]
pub extern "C" fn tono_play(score: &[u8], reply: &mut [u8]) -> i64
    ensures { Answered score.now reply.old result reply.new }
{
    let said = text::play_text(score, reply);
    text_reply::reply_as_i64(said)
}
