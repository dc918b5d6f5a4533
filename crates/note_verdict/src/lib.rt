// What refuses a note call, in the order of the tests.
#![tactic(auto)]

ghost use Rattle.std.specs.Prelude.{◌≡◌};
ghost use Rattle.note_verdict.specs.NoteRefusals.{note_call_refusal};

use dsl::SeqVoice;
use outcome::{Refusal, refuse_if};

// `n` is the output's length, `string` the string buffer's.
#[tactic(auto, unfolding(crate::specs::NoteRefusals::note_call_refusal, outcome::specs::First::first_of))]
pub fn note_call_verdict(
    rate: u32,
    voice: SeqVoice,
    gain: f32,
    pitch: &[f32],
    duty: &[f32],
    n: usize,
    string: usize,
) -> Result<(), Refusal>
    ensures { result ≡ note_call_refusal (record {
      rate = rate;
      voice = voice;
      gain = gain;
      pitch = pitch.now;
      duty = duty.now;
      n = n;
      string = string;
    }) }
{
    outcome::domain_verdict(rate, n)?;
    refuse_if(!dsl::knobs_sized(voice), Refusal::Knobs)?;
    refuse_if(string < 9600, Refusal::StringBuffer)?;
    refuse_if(!dsl::is_sized(gain), Refusal::Size)?;
    refuse_if(!dsl::all_sized(pitch), Refusal::Size)?;
    refuse_if(!dsl::all_sized(duty), Refusal::Size)?;
    refuse_if(pitch.len() == 0, Refusal::NoPitch)?;
    refuse_if(duty.len() != pitch.len(), Refusal::Lengths)?;
    refuse_if(n != pitch.len(), Refusal::Lengths)
}
