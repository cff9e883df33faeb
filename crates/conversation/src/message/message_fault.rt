ghost use Rattle.std.specs.Prelude.{◌≡◌};
ghost use Rattle.conversation.specs.message.MessageFault.{message_fault_status, message_fault_word};

use thiserror::Error;

/// Why a message is refused before its target is looked at. After each the connection ends.
#[derive(Clone, Copy, Debug, PartialEq, Eq, Hash, Error)]
pub enum MessageFault {
    /// The input doesn't begin with a head, or with none within the limits.
    #[error("no head of a message")]
    Head,
    /// The method is none of GET, HEAD, POST and DELETE.
    #[error("another method than GET, HEAD, POST and DELETE")]
    Method,
    /// A message of HTTP/1.1 hasn't exactly one `Host` field.
    #[error("not exactly one Host field")]
    Host,
    /// There is a `Transfer-Encoding` field.
    #[error("a Transfer-Encoding field")]
    Coding,
    /// There are several `Content-Length` fields, or the value isn't one or more digits.
    #[error("no length in Content-Length")]
    Length,
    /// The body is longer than `MAX_BODY` bytes.
    #[error("the body is too long")]
    Body,
}

impl MessageFault {
    /// The status code of its reply.
    pub fn status(self) -> u16
        ensures { result ≡ message_fault_status self }
    {
        match self {
            MessageFault::Head | MessageFault::Host | MessageFault::Length => 400,
            MessageFault::Body => 413,
            MessageFault::Method | MessageFault::Coding => 501,
        }
    }

    /// The word that its reply carries.
    pub fn word(self) -> &'static str
        ensures { result.now ≡ message_fault_word self }
    {
        match self {
            MessageFault::Head => "Head",
            MessageFault::Method => "Method",
            MessageFault::Host => "Host",
            MessageFault::Coding => "Coding",
            MessageFault::Length => "Length",
            MessageFault::Body => "Body",
        }
    }
}
