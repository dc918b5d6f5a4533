// Reads a text score from standard input and writes its listing to standard output.
#![tactic(auto)]

ghost use Rattle.std.specs.Prelude.{◌≡◌, ◌++◌, ◌<◌, ◌≤◌, ℕ, length, take, drop, IfOk, OnErr};
ghost use Rattle.std.specs.Io.KnownBytes.{Consumes};
ghost use Rattle.programs.specs.Counts.{IsPrefixLen};
ghost use Rattle.text.specs.Listing.{listing};
ghost use Rattle.programs.specs.Streams.{ConsumesPart};
ghost use Rattle.play.specs.Input.{InputListed, ReadListed};

use programs::{Input, input_buffer, read_input};
use std::io;
use std::io::{Read, Write};

// No listing is longer (the law `listing_most` of text).
fn reply_buffer() -> [u8; 32808]
    ensures { 32808 ≡ length result }
{
    [0u8; 32808]
}

// The listing of `score` at the start of `reply`, which has room for any listing, and its length.
fn put_listing(score: &[u8], reply: &mut [u8]) -> usize
    requires { 32808 ≤ length reply.old }
    ensures value { result ≡ length (listing score.now) }
    ensures reply_after { reply.new ≡ listing score.now ++ drop result reply.old }
{
    match text::play_text(score, reply) {
        Some(length) => length,
        None => 0,
    }
}

// Puts the listing of what was read, the first bytes of `score`, at the start of `reply`; the answer is how
// many bytes of the reply are to be written.
fn list_read(score: &[u8], input: Input, reply: &mut [u8]) -> usize
    requires in_bounds { 65536 < length score.now }
    requires prefix_len { IsPrefixLen input.0 score.now }
    requires in_bounds_2 { 32808 ≤ length reply.old }
    ensures read_listed { ReadListed score.now input.0 reply.old result reply.new }
    ensures prefix_len_2 { IsPrefixLen result reply.new }
{
    let read = input.count();
    put_listing(&score[..read], reply)
}

// Reads the input into `score` and puts its listing at the start of `reply`; the answer is how many
// bytes of the reply are to be written. A read that fails ends it with that read's error.
// The programs share `read_input`; what is left here is one call, and a contract that speaks of this program alone.
fn list_input<R: Read>(input: &mut R, score: &mut [u8], reply: &mut [u8]) -> io::Result<usize>
    requires in_bounds { 65536 < length score.old }
    requires in_bounds_2 { 32808 ≤ length reply.old }
    ensures input_listed { IfOk result (λ written. InputListed score.new reply.old written reply.new) }
    ensures of_input { IfOk result (λ written. (read : ℕ) × Consumes (R.remaining input.old) (R.remaining input.new) (take read score.new)
        × ReadListed score.new read reply.old written reply.new) }
    ensures prefix_len { IfOk result (λ written. IsPrefixLen written reply.new) }
    ensures part { OnErr result (ConsumesPart (R.remaining input.old) (R.remaining input.new) score.new) }
    ensures reply_left { OnErr result (reply.new ≡ reply.old) }
{
    let read = read_input(input, score)?;
    Ok(list_read(score, read, reply))
}

fn main(rt: HostRuntime) -> io::Result<()> {
    let mut score = input_buffer();
    let mut reply = reply_buffer();
    let written = list_input(&mut rt.stdin(), &mut score, &mut reply)?;
    rt.stdout().write_all(&reply[..written])
}
