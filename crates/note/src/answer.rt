// What a note call answers.
ghost use Rattle.std.specs.Prelude.{◌≡◌, Err};

use outcome::Refusal;
use rng::Rng;

// A note call's answer, and the generator after it.
#[derive(Clone, Copy)]
pub struct NoteAnswer {
    pub rng: Rng,
    pub outcome: Result<u64, Refusal>,
}

// A refused call hands back the generator that it was given.
pub(crate) fn refused(rng: Rng, why: Refusal) -> NoteAnswer
    ensures { result ≡ record { rng = rng; outcome = Err why } }
{
    NoteAnswer {
        rng,
        outcome: Err(why),
    }
}
