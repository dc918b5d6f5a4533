// The static library of the C calls: each export is the call of `tono` of the same name, under the same clauses.
#![tactic(auto)]

mod sheet_call; // sheet_call.rt: tono_cue_sheet
mod exponential; // exponential.rt: tono_exp
mod note_call; // note_call.rt: tono_note
mod plan_call; // plan_call.rt: tono_plan
mod score_calls; // score_calls.rt: tono_render_seq, tono_planned_draws
mod wave_calls; // wave_calls.rt: the calls on WAVE files

ghost use Rattle.tono.specs.Answered.{Answered};

// Writes the listing of the text score `score` at the start of `reply`, and returns its length in
// bytes. Where the reply is shorter than the listing it returns -23, and no byte changes.
#[unsafe(no_mangle)]
pub extern "C" fn tono_play(score: &[u8], reply: &mut [u8]) -> i64
    ensures { Answered score.now reply.old result reply.new }
{
    tono::tono_play(score, reply)
}
