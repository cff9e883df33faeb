ghost use Rattle.conversation.specs.Exchanges.{clocked};
ghost use Rattle.conversation.specs.message.Messages.{IsTold};
ghost use Rattle.conversation.specs.message.Next.{message_of};
ghost use Rattle.conversation.specs.Parts.{RepliesAreWritten, ReplyIsWritten, IsOver};
ghost use Rattle.conversation.specs.Parts.{RefusalIsWritten};
ghost use Rattle.conversation.specs.Run.{IsRun};
ghost use Rattle.conversation.specs.Uses.{EndsBy, Grows, IsPaced, Use};
ghost use Rattle.conversation.specs.Wants.{IsAwaited, told_of};
ghost use Rattle.std.specs.Prelude.{ℤ, List};

use crate::clock::Clock;
use crate::end::End;
use crate::line::Line;
use crate::message::head::MAX_HEAD;
use crate::message::message_fault::MessageFault;
use crate::message::next::{Next, next_of};
use crate::message::received::Received;
use crate::sending::{is_due, send, send_behind, tell};
use crate::service::Service;
use crate::unanswered::Unanswered;
use crate::wants::Wants;
use std::alloc::Global;
use std::io::{Read, Write};

/// Holds the conversation of a reader and a writer: answers each message that is read, in order, by
/// a reply that is written before more is asked for, until one of them ends it. While it awaits a
/// head it asks for at most `MAX_HEAD` bytes of it in all, and while it awaits a body for what that
/// lacks; each time for at most twice as many as came before, or 1024, and never for more than
/// 65536 (`window_behind`), so that small pieces cost little; it holds no more than one longest
/// message, and reads nothing after an end (`specs/Uses.antt`). Where a message expects an interim
/// reply, that is written once, before its body is asked for. A read or a write that the system
/// interrupts is made again. A head is parsed when it is whole and once more when its body is,
/// however small the pieces are in which that comes. No bytes are kept for another run.
pub fn run<O, S: Service<O>, L: Line<R, W>, R: Read, W: Write, C: Clock>(
    service: &S,
    alloc: Global,
    line: &mut L,
    reader: &mut R,
    writer: &mut W,
    office: &mut O,
    clock: &mut C,
) -> End
    ensures run { IsRun (clocked (C.reads clock.old) S.step) S.refusal
        (office.old, C.answers clock.old) (office.new, C.answers clock.new)
        (R.remaining reader.old) (R.remaining reader.new)
        (W.contents writer.old) (W.contents writer.new) result }
    ensures paced { (uses : List Use) × Grows (L.uses line.old) (L.uses line.new) uses
        × IsPaced (clocked (C.reads clock.old) S.step) S.refusal
        (office.old, C.answers clock.old) (R.remaining reader.old) (R.remaining reader.new)
        (W.contents writer.old) (W.contents writer.new) uses
        × EndsBy result uses }
    ensures stays { (given : ℤ) → C.reads clock.new given → C.reads clock.old given }
{
    let mut unanswered = Unanswered::new(alloc);
    let mut wants = Wants::Head(MAX_HEAD);
    'reads: for made in 0..u64::MAX {
        match unanswered.read_more(line, reader, wants.count()) {
            // What was interrupted is asked for again.
            Ok(None) => continue 'reads,
            Ok(Some(0)) => {
                return finish(service, alloc, line, writer, unanswered.as_slice(), wants);
            }
            Ok(Some(count)) => {
                if let Some(left) = wants.after(count) {
                    wants = left;
                    continue 'reads;
                }
            }
            Err(end) => return end,
        }
        match answer_all(
            service,
            alloc,
            office,
            clock,
            line,
            writer,
            unanswered.as_slice(),
            wants.told(),
        ) {
            Ok(awaiting) => {
                wants = awaiting.wants;
                unanswered.drop_front(awaiting.len);
            }
            Err(end) => return end,
        }
    }
    End::ReadFault
}

// How much of an input was answered, and what is awaited of the rest.
#[derive(Clone, Copy)]
pub(crate) struct Awaiting {
    pub(crate) len: usize,
    pub(crate) wants: Wants,
}

// Answers all whole messages at the front of an input, in order, each by a reply that is written
// before the next one is looked at. For the first one an interim reply may have been written; where
// a body is awaited, the interim reply is written that its message expects.
fn answer_all<O, S: Service<O>, L: Line<R, W>, R: Read, W: Write, C: Clock>(
    service: &S,
    alloc: Global,
    office: &mut O,
    clock: &mut C,
    line: &mut L,
    writer: &mut W,
    input: &[u8],
    told: bool,
) -> Result<Awaiting, End>
    requires { IsTold input.now told }
    ensures written { RepliesAreWritten (clocked (C.reads clock.old) S.step) S.refusal told
        (office.old, C.answers clock.old) (office.new, C.answers clock.new)
        (W.contents writer.old, L.uses line.old) (W.contents writer.new, L.uses line.new)
        input.now result }
    ensures stays { (given : ℤ) → C.reads clock.new given → C.reads clock.old given }
{
    let mut len = 0;
    let mut was_told = told;
    'messages: while len < input.len() {
        match next_of(&input[len..]) {
            Next::Whole(message) => {
                if let Err(end) = answer_one(
                    service, alloc, office, clock, line, writer, &message, was_told,
                ) {
                    return Err(end);
                }
                if message.closes {
                    return Err(End::Closed);
                }
                len += message.len;
                was_told = false;
            }
            Next::Refused(fault) => return Err(refuse(service, alloc, line, writer, fault)),
            Next::NeedHead => {
                return Ok(Awaiting {
                    len,
                    wants: Wants::Head(MAX_HEAD - (input.len() - len)),
                });
            }
            Next::NeedBody { missing, expects } => {
                if let Err(end) = tell(line, writer, is_due(expects, was_told)) {
                    return Err(end);
                }
                return Ok(Awaiting {
                    len,
                    wants: Wants::Body {
                        missing,
                        told: expects,
                    },
                });
            }
        }
    }
    Ok(Awaiting {
        len,
        wants: Wants::Head(MAX_HEAD),
    })
}

// Answers one message, and writes the reply, behind the interim one that it expects unless that was
// written before.
fn answer_one<O, S: Service<O>, L: Line<R, W>, R: Read, W: Write, C: Clock>(
    service: &S,
    alloc: Global,
    office: &mut O,
    clock: &mut C,
    line: &mut L,
    writer: &mut W,
    message: &Received<'_>,
    told: bool,
) -> Result<(), End>
    ensures written { ReplyIsWritten (clocked (C.reads clock.old) S.step) told
        (office.old, C.answers clock.old) (office.new, C.answers clock.new)
        (W.contents writer.old, L.uses line.old) (W.contents writer.new, L.uses line.new)
        (message_of message.now) result }
    ensures stays { (given : ℤ) → C.reads clock.new given → C.reads clock.old given }
{
    match service.answer(alloc, office, clock, message) {
        Ok(reply) => send_behind(line, writer, is_due(message.expects, told), &reply),
        Err(_) => Err(End::Memory),
    }
}

// Writes the reply to a message that is refused.
fn refuse<O, S: Service<O>, L: Line<R, W>, R: Read, W: Write>(
    service: &S,
    alloc: Global,
    line: &mut L,
    writer: &mut W,
    fault: MessageFault,
) -> End
    ensures { RefusalIsWritten (W.contents writer.old, L.uses line.old)
        (W.contents writer.new, L.uses line.new) (S.refusal fault) result }
{
    match service.refuse(alloc, fault) {
        Ok(text) => match send(line, writer, &text) {
            Ok(()) => End::BadMessage,
            Err(end) => end,
        },
        Err(_) => End::Memory,
    }
}

// How the conversation ends where the input ended, and this is left and awaited of it.
fn finish<O, S: Service<O>, L: Line<R, W>, R: Read, W: Write>(
    service: &S,
    alloc: Global,
    line: &mut L,
    writer: &mut W,
    rest: &[u8],
    wants: Wants,
) -> End
    requires { IsAwaited rest.now wants }
    ensures { IsOver S.refusal (told_of wants) rest.now (W.contents writer.old, L.uses line.old)
        (W.contents writer.new, L.uses line.new) result }
{
    match wants {
        Wants::Head(_) if !rest.is_empty() => refuse(
            service,
            alloc,
            line,
            writer,
            MessageFault::Head,
        ),
        _ => End::Closed,
    }
}
