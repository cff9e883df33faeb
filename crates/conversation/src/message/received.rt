use crate::message::method::Method;

/// A whole message, as parts of the input that it came with.
#[derive(Clone, Copy, Debug, PartialEq, Eq)]
pub struct Received<'b> {
    pub method: Method,
    /// The path and the query of the target, as they were written: UTF-8, not decoded.
    pub target: &'b [u8],
    pub body: &'b [u8],
    /// Whether the conversation ends after the reply to this message.
    pub closes: bool,
    /// Whether an interim reply is expected before the body is sent.
    pub expects: bool,
    /// How many bytes of the input the message takes, its head included.
    pub len: usize,
}
