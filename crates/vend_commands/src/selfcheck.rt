//! A conversation of this machine with itself: what the desk writes over a connection, beside what
//! it writes over memory.

pub(crate) mod fault;
pub(crate) mod prepared;

ghost use Rattle.std.specs.Prelude.{◌≡◌, ◌⊎◌, ◌↔◌, true, IfErr, IfOk, IfSome, OnOk};
ghost use Rattle.sqlite.specs.Steps.{over_memory};
ghost use Rattle.conversation.specs.declared.end.End.TheVariants.{Closed};
ghost use Rattle.vend_core.specs.Law.Life.{Life};
ghost use Rattle.office_rules.specs.declared.decision.refusal.Refusal.TheVariants.{Memory};
ghost use Rattle.books.specs.Keeps.{Represents, seen};
ghost use Rattle.vend_commands.specs.commands.Selfchecked.{AgreesOver, AreReplies};
ghost use Rattle.vend_commands.specs.commands.Selfchecked.{ConversesWithItself, ConversesOver};
ghost use Rattle.vend_commands.specs.commands.Selfchecked.{Disagrees, HasNoReplies};
ghost use Rattle.vend_commands.specs.commands.Selfchecked.{fault_in_memory};
ghost use Rattle.vend_commands.specs.commands.Selfchecked.{fault_over_net};

use crate::selfcheck::fault::SelfcheckFault;
use crate::selfcheck::prepared::{NOW, prepare};
use books::Books;
use desk::{Desk, End, Script};
use office_rules::Refusal;
use sqlite::MemStore;
use std::alloc::{AllocError, Global};
use std::io;
use std::io::{ErrorKind, Read, Write};
use sts_token::BlockTransform;
use vend_ports::Loopback;

// A sale, and the receipt of it.
const MESSAGES: &[u8] = b"POST /sales HTTP/1.1\r\nHost: d\r\nContent-Length: 64\r\n\r\n\
    {\"meter\":\"12345678903\",\"operator\":\"ann\",\"ref\":\"A-1\",\"tender\":10}\
    GET /sales/1/receipt HTTP/1.1\r\nHost: d\r\n\r\n";

/// Has the desk answer two messages over memory, and then over a connection of this machine with
/// itself. Both offices are in memory and begin alike.
///
/// # Errors
/// `Net` where the replies are not the same, or do not come; and `Unopened` and `Refused`.
pub(crate) fn selfcheck<L: Loopback, T: BlockTransform + Copy + Drop>(
    alloc: Global,
    loopback: L,
    transform: T,
) -> Result<(), SelfcheckFault>
    ensures agrees { OnOk result (AgreesOver L.Loopback L.Stream.remaining L.Stream.contents
        loopback (T.forwards transform)) }
    ensures disagrees { IfErr result (Disagrees L.Loopback L.Stream.remaining L.Stream.contents
        loopback (T.forwards transform) (seen {g = over_memory} {h = T.BlockTransform})) }
{
    let replies = match replies_over_memory(alloc, transform) {
        Ok(replies) => replies,
        Err(fault) => return Err(fault),
    };
    let mut stream = match replies_over_net(alloc, loopback, transform) {
        Ok(stream) => stream,
        Err(fault) => return Err(fault),
    };
    match gives_exactly(alloc, &mut stream, &replies) {
        Ok(true) => Ok(()),
        Ok(false) => Err(SelfcheckFault::Net),
        Err(error) => Err(net_fault_of(&error)),
    }
}

/// The replies to the messages over memory.
///
/// # Errors
/// `Net` where the conversation is cut; and `Unopened` and `Refused`.
pub fn replies_over_memory<T: BlockTransform + Drop>(
    alloc: Global,
    transform: T,
) -> Result<Vec<u8>, SelfcheckFault>
    ensures replies { IfOk result (λ replies. AreReplies (T.forwards transform) replies.items) }
    ensures none { IfErr result (HasNoReplies (seen {g = over_memory} {h = T.BlockTransform})
        (T.forwards transform)) }
{
    let mut books = match prepare(alloc, transform) {
        Ok(books) => books,
        Err(fault) => return Err(fault),
    };
    let mut reader = MESSAGES;
    let mut replies = Vec::new(alloc);
    let Ok(end) = answer(alloc, &mut reader, &mut replies, &mut books) else {
        return Err(SelfcheckFault::Refused(Refusal::Memory));
    };
    match fault_in_memory(end) {
        None => Ok(replies),
        Some(fault) => Err(fault),
    }
}

// The stream on which the replies to the messages come, over a connection that has ended.
fn replies_over_net<L: Loopback, T: BlockTransform + Drop>(
    alloc: Global,
    loopback: L,
    transform: T,
) -> Result<L::Stream, SelfcheckFault>
    ensures answered { IfOk result (λ near. ConversesOver L.Loopback L.Stream.remaining
        L.Stream.contents loopback (T.forwards transform) near Closed) }
    ensures disagrees { IfErr result (Disagrees L.Loopback L.Stream.remaining L.Stream.contents
        loopback (T.forwards transform) (seen {g = over_memory} {h = T.BlockTransform})) }
{
    let mut books = match prepare(alloc, transform) {
        Ok(books) => books,
        Err(fault) => return Err(fault),
    };
    let (near, mut reader, mut writer) = match loopback.connect(MESSAGES) {
        Ok(ends) => ends,
        Err(error) => return Err(net_fault_of(&error)),
    };
    let Ok(end) = answer(alloc, &mut reader, &mut writer, &mut books) else {
        return Err(SelfcheckFault::Refused(Refusal::Memory));
    };
    match fault_over_net(end) {
        None => Ok(near),
        Some(fault) => Err(fault),
    }
}

// Has the desk hold a conversation with a reader and a writer, and tells how it ended. The clock
// stands still.
fn answer<T: BlockTransform, R: Read, W: Write>(
    alloc: Global,
    reader: &mut R,
    writer: &mut W,
    books: &mut Books<MemStore, T>,
) -> Result<End, AllocError>
    ensures { IfOk result (λ end. (life : Life)
        → Represents life (seen books.old)
        → ConversesWithItself life (R.remaining reader.old)
        (W.contents writer.old) (W.contents writer.new) end) }
{
    let Ok(desk) = Desk::new(alloc) else {
        return Err(AllocError);
    };
    let mut clock = Script::new(NOW, &[]);
    Ok(desk.run(alloc, reader, writer, books, &mut clock))
}

// What is told of a conversation over memory that ended so. Where a write failed there was no room:
// a vector takes all that there is room for.
fn fault_in_memory(end: End) -> Option<SelfcheckFault>
    ensures { result ≡ fault_in_memory end }
{
    match end {
        End::Closed => None,
        End::WriteFault => Some(SelfcheckFault::Refused(Refusal::Memory)),
        End::BadMessage | End::ReadFault | End::Memory => Some(SelfcheckFault::Net),
    }
}

// What is told of one over a connection.
fn fault_over_net(end: End) -> Option<SelfcheckFault>
    ensures { result ≡ fault_over_net end }
{
    match end {
        End::Closed => None,
        End::BadMessage | End::ReadFault | End::WriteFault | End::Memory => Some(
            SelfcheckFault::Net,
        ),
    }
}

/// Whether all that a reader has left is this text. The reader is read to its end.
pub fn gives_exactly<R: Read>(alloc: Global, reader: &mut R, text: &[u8]) -> io::Result<bool>
    ensures { IfOk result (λ same. IfSome (R.remaining reader.old)
        (λ bytes. (same ≡ true) ↔ (bytes ≡ text.now))) }
{
    let mut bytes = Vec::new(alloc);
    reader.read_to_end(&mut bytes)?;
    Ok(bytes.as_slice() == text)
}

// Why a connection gave no more, or none was had.
fn net_fault_of(error: &io::Error) -> SelfcheckFault
    ensures { (result ≡ SelfcheckFault.Net) ⊎ (result ≡ SelfcheckFault.Refused Memory) }
{
    match error.kind() {
        ErrorKind::OutOfMemory => SelfcheckFault::Refused(Refusal::Memory),
        _ => SelfcheckFault::Net,
    }
}
