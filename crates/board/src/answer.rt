// What a write answers. The numbers are `write_number` of specs/Answer.
ghost use Rattle.std.specs.Prelude.{◌≡◌};
ghost use Rattle.board.specs.Answer.{refusal_number, write_number};

// Why a write was not taken.
#[derive(Clone, Copy)]
pub enum WriteRefusal {
    // A sample found no place in the queue.
    QueueFull,
    // No register takes such a write.
    Invalid,
}

impl WriteRefusal {
    pub fn number(self) -> u32
        ensures { result ≡ refusal_number self }
    {
        match self {
            WriteRefusal::QueueFull => 38,
            WriteRefusal::Invalid => 39,
        }
    }
}

// 0 where the write was taken, whole; else its refusal's number.
pub fn write_number(outcome: Result<(), WriteRefusal>) -> u32
    ensures { result ≡ write_number outcome }
{
    match outcome {
        Ok(()) => 0,
        Err(refusal) => refusal.number(),
    }
}
