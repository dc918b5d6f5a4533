// The listing's length, or that it did not fit.
ghost use Rattle.std.specs.Prelude.{◌≡◌, ◌^◌, ◌<◌};
ghost use Rattle.text_reply.specs.Reply.{length_in, return_of};

// The number that C gets of a listing's length, or of a reply that is shorter than the listing.
pub fn reply_as_i64(reply: Option<usize>) -> i64
    requires { length_in reply < 2 ^ 63 }
    ensures { result ≡ return_of reply }
{
    match reply {
        Some(length) => returned::length_as_i64(length),
        None => -23,
    }
}
