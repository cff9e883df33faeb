//! Messages to a desk, and what comes of them.

ghost use Rattle.std.specs.Prelude.{◌≡◌, ◌+◌, ◌<◌, ◌≤◌, ◌++◌, [], List, ℕ, IfOk, IfSome};
ghost use Rattle.std.specs.Prelude.{MatchOption, MatchResult, length};
ghost use Rattle.std.specs.Io.KnownBytes.{Consumes};
ghost use Rattle.desk_client.specs.Reply.{IsReply};
ghost use Rattle.desk_client.specs.declared.told.Told.{Told};
ghost use Rattle.desk_commands.specs.Exchanged.{ComesBehind, IsExchanged, IsRead, IsRound};
ghost use Rattle.desk_commands.specs.Exchanged.{IsUnheld, calls_of, longest_reply};

use asks::Grants;
use command_line::Address;
use desk_client::{MAX_HEAD, Reading, reply_in, told_law};
use papers::write_whole;
use std::alloc::{AllocError, Global};
use std::io::{ErrorKind, Read, Write};
use vend_ports::Loopback;

// The most bytes that one read asks for.
const ROOM: usize = 8192;

/// Has a connection with the desk at an address, sends one message on it, as `exchange_on` does,
/// and lets it go. There is none where it cannot be had.
pub(crate) fn exchange<L: Loopback>(
    alloc: Global,
    loopback: L,
    desk: Address,
    message: &[u8],
    wanted: Grants,
) -> Option<Vec<u8>>
    ensures { IsExchanged (λ came. came.items)
        (calls_of L.Loopback L.Stream.remaining L.Stream.contents loopback) desk message.now
        result }
{
    match loopback.call(desk) {
        Ok(stream) => {
            let mut stream = stream;
            let came = exchange_on(alloc, &mut stream, message, wanted);
            L::end(stream);
            came
        }
        Err(_) => None,
    }
}

/// Sends a message that wants this on a stream, and gives back what came: a whole reply, or what
/// had come where the connection broke or its time was over, or what is no reply, whatever follows.
/// There is none where the message was cut off, and none where there was no room for what came:
/// whether it was done is not known then.
pub(crate) fn exchange_on<S: Read + Write>(
    alloc: Global,
    stream: &mut S,
    message: &[u8],
    wanted: Grants,
) -> Option<Vec<u8>>
    ensures held { MatchOption result
        (IsUnheld S.remaining S.contents stream.old stream.new message.now)
        (λ came. IsRound S.remaining S.contents stream.old stream.new message.now came.items) }
    ensures few { IfSome result (λ came. length came.items ≤ longest_reply) }
{
    if write_whole(message, stream).is_err() {
        return None;
    }
    receive(alloc, stream, wanted).ok()
}

// Reads a reply, by as many reads as it takes, or up to where none can be had any more.
fn receive<S: Read>(alloc: Global, stream: &mut S, wanted: Grants) -> Result<Vec<u8>, AllocError>
    ensures read { MatchResult result
        (λ came. Consumes (S.remaining stream.old) (S.remaining stream.new) came.items)
        (λ _. IsRead (S.remaining stream.old) (S.remaining stream.new)) }
    ensures few { IfOk result (λ came. length came.items ≤ longest_reply) }
{
    let mut bytes = Vec::new(alloc);
    for _ in 0..u64::MAX {
        let count = lacking(&bytes, wanted);
        if count == 0 {
            return Ok(bytes);
        }
        match read_behind(stream, &mut bytes, count) {
            Ok(true) => {}
            Ok(false) => return Ok(bytes),
            Err(error) => return Err(error),
        }
    }
    Ok(bytes)
}

// How many bytes are asked for next, where these came so far of the reply to a message that wants
// this: none behind a whole reply, nor where it can be none, whatever follows.
fn lacking(came: &[u8], wanted: Grants) -> usize
    ensures more { 0 < result → (told : Told) → ¬ IsReply wanted came.now told }
    ensures few { 0 < result → length came.now + result ≤ longest_reply }
    ensures done { result ≡ 0 → (more : List ℕ) (told : Told)
        → IsReply wanted (came.now ++ more) told → more ≡ [] }
{
    told_law();
    match reply_in(came, wanted) {
        Reading::NeedHead => MAX_HEAD.saturating_sub(came.len()),
        Reading::NeedBody(missing) => missing as usize,
        Reading::Whole(_) | Reading::OutOfForm => 0,
    }
}

// Reads some bytes behind those that came, at most so many. None come where the input has ended or
// the read fails; one that the system interrupts is made again.
fn read_behind<S: Read>(
    stream: &mut S,
    bytes: &mut Vec<u8>,
    count: usize,
) -> Result<bool, AllocError>
    ensures read { MatchResult result
        (λ some. ComesBehind (S.remaining stream.old) (S.remaining stream.new)
        bytes.old.items bytes.new.items some)
        (λ _. IsRead (S.remaining stream.old) (S.remaining stream.new)) }
    ensures few { IfOk result (λ _. length bytes.new.items ≤ length bytes.old.items + count) }
{
    let mut piece = [0; ROOM];
    for _ in 0..u64::MAX {
        match stream.read(&mut piece[..count.min(ROOM)]) {
            Ok(0) => return Ok(false),
            Ok(came) => {
                bytes.extend_from_slice(&piece[..came])?;
                return Ok(true);
            }
            Err(error) if error.kind() == ErrorKind::Interrupted => {}
            Err(_) => return Ok(false),
        }
    }
    Ok(false)
}
