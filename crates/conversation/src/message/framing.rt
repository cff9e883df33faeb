ghost use Rattle.std.specs.Prelude.{◌≡◌, length, All, bytes_eq, codes};
ghost use Rattle.std.specs.Char.{is_ascii_digit};
ghost use Rattle.std.specs.List.{list_all};
ghost use Rattle.httparse.specs.Spans.{IsHeaderWithin};
ghost use Rattle.conversation.specs.message.Fields.{fields_at, values_of};
ghost use Rattle.conversation.specs.message.Framing.{body_len, framing, is_number, is_uncoded};
ghost use Rattle.conversation.specs.message.Framing.{length_of, lists_close, lists_continue};
ghost use Rattle.conversation.specs.message.Framing.{method_of, names_its_host};

use crate::message::fields::{Only, only_value};
use crate::message::message_fault::MessageFault;
use crate::message::method::Method;
use http1::fields::KnownFields;
use httparse::spans::HeaderSpan;

/// The most bytes that a body may have.
pub const MAX_BODY: usize = 1048576;

/// What a head says of its message beyond the target.
#[derive(Clone, Copy, Debug, PartialEq, Eq, Hash)]
pub struct Framing {
    pub method: Method,
    /// How many bytes of body follow the head: at most `MAX_BODY`.
    pub body: usize,
    /// Whether the conversation ends after this message.
    pub closes: bool,
    /// Whether an interim reply is expected before the body is sent.
    pub expects: bool,
}

// What a head says, from its method, its minor version and its fields, or its first fault.
#[tactic(auto, unfolding(crate::specs::message::Framing::framing))]
pub(crate) fn framing_of(
    method: &[u8],
    minor: u8,
    input: &[u8],
    spans: &[HeaderSpan],
) -> Result<Framing, MessageFault>
    requires { All (IsHeaderWithin (length input.now)) spans.now }
    ensures { result ≡ framing method.now minor (fields_at input.now spans.now) }
{
    let method = method_of(method)?;
    if !names_its_host(minor, input, spans) {
        return Err(MessageFault::Host);
    }
    if !is_uncoded(input, spans) {
        return Err(MessageFault::Coding);
    }
    let body = body_len(input, spans)?;
    let options = options_of(input, spans);
    Ok(Framing {
        method,
        body,
        closes: minor == 0 || options.0,
        expects: minor != 0 && body > 0 && options.1,
    })
}

// The desk's method of this name.
fn method_of(name: &[u8]) -> Result<Method, MessageFault>
    ensures { result ≡ method_of name.now }
{
    match name {
        b"GET" => Ok(Method::Get),
        b"POST" => Ok(Method::Post),
        b"HEAD" => Ok(Method::Head),
        _ if is_delete(name) => Ok(Method::Delete),
        _ => Err(MessageFault::Method),
    }
}

fn is_delete(name: &[u8]) -> bool
    ensures { result ≡ bytes_eq name.now (codes "DELETE") }
{
    name == b"DELETE".as_slice()
}

// Whether a message of HTTP/1.1 has exactly one `Host` field.
fn names_its_host(minor: u8, input: &[u8], spans: &[HeaderSpan]) -> bool
    requires { All (IsHeaderWithin (length input.now)) spans.now }
    ensures { result ≡ names_its_host minor (fields_at input.now spans.now) }
{
    minor == 0 || matches!(only_value(input, spans, b"Host"), Only::One(_))
}

// Whether there is no `Transfer-Encoding` field.
fn is_uncoded(input: &[u8], spans: &[HeaderSpan]) -> bool
    requires { All (IsHeaderWithin (length input.now)) spans.now }
    ensures { result ≡ is_uncoded (fields_at input.now spans.now) }
{
    matches!(only_value(input, spans, b"Transfer-Encoding"), Only::Absent)
}

// The length of the body.
fn body_len(input: &[u8], spans: &[HeaderSpan]) -> Result<usize, MessageFault>
    requires { All (IsHeaderWithin (length input.now)) spans.now }
    ensures { result
        ≡ body_len (values_of (codes "content-length") (fields_at input.now spans.now)) }
{
    match only_value(input, spans, b"Content-Length") {
        Only::Absent => Ok(0),
        Only::One(digits) => length_of(digits),
        Only::Several => Err(MessageFault::Length),
    }
}

// Whether a `Connection` field lists `close`, and whether an `Expect` field lists `100-continue`.
#[tactic(auto, unfolding(http1::specs::Fields::known_fields))]
fn options_of(input: &[u8], spans: &[HeaderSpan]) -> (bool, bool)
    requires { All (IsHeaderWithin (length input.now)) spans.now }
    ensures close { result.0 ≡ lists_close (fields_at input.now spans.now) }
    ensures continues { result.1 ≡ lists_continue (fields_at input.now spans.now) }
{
    let known = KnownFields::from_spans(input, spans);
    (known.close, known.expect_continue)
}

// The length of a body that the value writes. It is compared as a number, leading zeros and all.
fn length_of(value: &[u8]) -> Result<usize, MessageFault>
    ensures { result ≡ length_of value.now }
{
    if !is_number(value) {
        return Err(MessageFault::Length);
    }
    let mut length = 0;
    for digit in value {
        length = length * 10 + usize::from(*digit - b'0');
        if length > MAX_BODY {
            return Err(MessageFault::Body);
        }
    }
    Ok(length)
}

// Whether the value is one or more digits.
fn is_number(value: &[u8]) -> bool
    ensures { result ≡ is_number value.now }
{
    !value.is_empty() && are_digits(value)
}

fn are_digits(value: &[u8]) -> bool
    ensures { result ≡ list_all is_ascii_digit value.now }
{
    value.iter().all(|byte| byte.is_ascii_digit())
}
