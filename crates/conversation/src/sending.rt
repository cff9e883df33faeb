//! A text that is handed to a writer, by as many writes as it takes.

ghost use Rattle.std.specs.Prelude.{◌≡◌, ◌<◌, ◌++◌, [], length};
ghost use Rattle.conversation.specs.Conversation.{interim_for};
ghost use Rattle.conversation.specs.Ends.{IsLeftOfEither, IsPart, IsOutputSent};
ghost use Rattle.conversation.specs.Uses.{IsLeftOf};
ghost use Rattle.conversation.specs.Parts.{is_due};

use crate::end::End;
use crate::line::{Line, is_interrupted};
use std::io::{Read, Write};

// The interim reply by which the body of a message may be sent.
const INTERIM: &[u8] = b"HTTP/1.1 100 Continue\r\n\r\n";

// Whether an interim reply is due: one that a message expects and that was not written.
pub(crate) fn is_due(expects: bool, told: bool) -> bool
    ensures { result ≡ is_due expects told }
{
    expects && !told
}

// Hands over the interim reply, if that is due, and then a text.
pub(crate) fn send_behind<L: Line<R, W>, R: Read, W: Write>(
    line: &mut L,
    writer: &mut W,
    is_due: bool,
    text: &[u8],
) -> Result<(), End>
    ensures { IsOutputSent (IsLeftOfEither (interim_for is_due) text.now)
        (W.contents writer.old, L.uses line.old) (W.contents writer.new, L.uses line.new)
        (interim_for is_due ++ text.now) result }
{
    match tell(line, writer, is_due) {
        Ok(()) => send(line, writer, text),
        Err(end) => Err(end),
    }
}

// Hands over the interim reply, if that is due.
#[tactic(auto, unfolding(crate::specs::Conversation::interim))]
pub(crate) fn tell<L: Line<R, W>, R: Read, W: Write>(
    line: &mut L,
    writer: &mut W,
    is_due: bool,
) -> Result<(), End>
    ensures { IsOutputSent (IsLeftOf [] (interim_for is_due))
        (W.contents writer.old, L.uses line.old) (W.contents writer.new, L.uses line.new)
        (interim_for is_due) result }
{
    if is_due {
        send(line, writer, INTERIM)
    } else {
        Ok(())
    }
}

// Hands over a whole text, of which each write offers all that is left.
pub(crate) fn send<L: Line<R, W>, R: Read, W: Write>(
    line: &mut L,
    writer: &mut W,
    text: &[u8],
) -> Result<(), End>
    ensures { IsOutputSent (IsLeftOf [] text.now) (W.contents writer.old, L.uses line.old)
        (W.contents writer.new, L.uses line.new) text.now result }
{
    let mut rest = text;
    while !rest.is_empty() {
        match send_some(line, writer, rest) {
            Ok(taken) => rest = &rest[taken..],
            Err(end) => return Err(end),
        }
    }
    Ok(())
}

// Hands over some bytes of a text, and says how many. A write that the system interrupts took none,
// and is made again.
fn send_some<L: Line<R, W>, R: Read, W: Write>(
    line: &mut L,
    writer: &mut W,
    text: &[u8],
) -> Result<usize, End>
    requires { 0 < length text.now }
    ensures { IsPart (W.contents writer.old, L.uses line.old)
        (W.contents writer.new, L.uses line.new) text.now result }
{
    'writes: for made in 0..u64::MAX {
        match line.write(writer, text) {
            Ok(0) => return Err(End::WriteFault),
            Ok(taken) => return Ok(taken),
            Err(error) if is_interrupted(&error) => {}
            Err(_) => return Err(End::WriteFault),
        }
    }
    Err(End::WriteFault)
}
