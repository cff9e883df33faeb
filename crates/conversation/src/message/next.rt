ghost use Rattle.std.specs.Prelude.{◌≡◌, ℕ, List};
ghost use Rattle.conversation.specs.message.Front.{IsHeadAt};
ghost use Rattle.conversation.specs.message.Messages.{AgreeBy, Ending, Message, Messages, Stop};
ghost use Rattle.conversation.specs.message.Next.{FindsNext, BeginsAs};

use crate::message::framing::framing_of;
use crate::message::head::{Front, MAX_FIELDS, front_of};
use crate::message::message_fault::MessageFault;
use crate::message::received::Received;
use crate::message::target::path_of;
use httparse::spans::{EMPTY_HEADER_SPAN, HeaderSpan, RequestSpans};

/// What an input begins with, of which more bytes may come: a whole message, one that is refused,
/// or a part of one.
#[derive(Clone, Copy, Debug, PartialEq, Eq)]
pub enum Next<'b> {
    /// A whole message.
    Whole(Received<'b>),
    /// A message that is refused, whatever follows.
    Refused(MessageFault),
    /// Fewer than `MAX_HEAD` bytes that aren't a head yet, and may become one.
    NeedHead,
    /// A head, and a body that lacks so many bytes: at least one. The sender may expect an interim
    /// reply before it sends them.
    NeedBody { missing: usize, expects: bool },
}

/// Reads the front of an input of which more may come: a whole message, or why there can be none
/// whatever follows, or what is missing yet: a head, or so many bytes of a body.
pub fn next_of(input: &[u8]) -> Next<'_>
    ensures next { BeginsAs input.now result }
    ensures finds { FindsNext input.now result }
{
    let mut fields = [EMPTY_HEADER_SPAN; MAX_FIELDS];
    match front_of(input, &mut fields) {
        Front::Head(spans) => next_after(input, spans, &fields),
        Front::Partial => Next::NeedHead,
        Front::Never => Next::Refused(MessageFault::Head),
    }
}

/// An input is read in one way: whatever pieces it comes in, it has the same messages and the same
/// end. There is one exception: if the reader failed within bytes that can begin no head, the end
/// may be either the failed read or the bad head.
pub fn message_law()
    ensures { (stop : Stop) (input : List ℕ) (ms ns : List Message) (e f : Ending)
        → Messages stop input ms e → Messages stop input ns f → (ms ≡ ns) × AgreeBy stop e f }
{}

// The same of an input that begins with a head.
fn next_after<'b>(input: &'b [u8], spans: RequestSpans, fields: &[HeaderSpan]) -> Next<'b>
    requires { IsHeadAt input.now fields.now spans }
    ensures { BeginsAs input.now result }
{
    let fields = &fields[..spans.headers];
    let framing = match framing_of(spans.method.of(input), spans.version, input, fields) {
        Ok(framing) => framing,
        Err(fault) => return Next::Refused(fault),
    };
    let target = path_of(spans.path.of(input));
    let after = &input[spans.len..];
    if after.len() < framing.body {
        let missing = framing.body - after.len();
        let expects = framing.expects;
        return Next::NeedBody { missing, expects };
    }
    Next::Whole(Received {
        method: framing.method,
        target,
        body: &after[..framing.body],
        closes: framing.closes,
        expects: framing.expects,
        len: spans.len + framing.body,
    })
}
