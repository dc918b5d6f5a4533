// The calls on text scores that play nothing, as C has them: a number that is 0, a length or minus a refusal's number.
// `tono` exports them.
#![tactic(auto)]

ghost use Rattle.tono_text.specs.CueSheet.{SheetReturned};
ghost use Rattle.tono_text.specs.Planned.{PlanReturned};

// Puts the draws that the text score `score` would make into `draws`, and returns 0. A refused score returns minus the
// refusal's number, and changes nothing. The draw at which each note begins is still reckoned in list order.
pub fn plan(score: &[u8], draws: &mut u64) -> i64
    ensures { PlanReturned score.now draws.old result draws.new }
{
    let mut words = text_judge::words_buffer();
    match text_plan::plan_text(score, &mut words) {
        Ok((_, total)) => {
            *draws = total;
            0
        }
        Err(number) => returned::minus_number(number),
    }
}

// Writes the cue sheet of the text score `score` at the start of `page`, and returns its length in bytes; the
// bytes after it stay. A refused call returns minus the refusal's number, and changes nothing.
pub fn cue_sheet(score: &[u8], page: &mut [u8]) -> i64
    ensures { SheetReturned score.now page.old result page.new }
{
    match text_sheet::sheet_text(score, page) {
        Ok(length) => returned::length_as_i64(length),
        Err(refusal) => returned::minus_number(refusal),
    }
}
