ghost use Rattle.conversation.specs.message.Front.{IsFront};

use httparse::Status;
use httparse::spans::{HeaderSpan, RequestSpans, parse_request};

/// The most bytes that a head may have, with the empty lines before it and the one after it.
pub const MAX_HEAD: usize = 8192;

/// The most header fields that a head may have.
pub const MAX_FIELDS: usize = 32;

/// What an input begins with.
#[derive(Clone, Copy, Debug, PartialEq, Eq)]
pub enum Front {
    /// A head, with its parts as offsets into the input.
    Head(RequestSpans),
    /// No head yet: fewer than `MAX_HEAD` bytes, which may become one.
    Partial,
    /// No head, whatever bytes follow.
    Never,
}

/// What the input begins with, and where the header fields of its head are, if it has one.
pub fn front_of(input: &[u8], fields: &mut [HeaderSpan; MAX_FIELDS]) -> Front
    ensures front { IsFront input.now fields.new result }
{
    match parse_request(input, fields) {
        Ok(Status::Complete(head)) if head.len <= MAX_HEAD => Front::Head(head),
        Ok(Status::Partial) if input.len() < MAX_HEAD => Front::Partial,
        _ => Front::Never,
    }
}
