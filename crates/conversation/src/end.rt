/// How a conversation ended.
#[derive(Clone, Copy, Debug, PartialEq, Eq, Hash)]
pub enum End {
    /// The input ended, or a message closed the conversation: all replies were written.
    Closed,
    /// A message was refused: all replies were written, and the refusal last.
    BadMessage,
    /// A read failed, but was not interrupted by the system, or would have been number 2^64 of this
    /// run: the replies to all whole messages before it were written.
    ReadFault,
    /// A write failed or took no byte, but was not interrupted by the system, or 2^64 - 1 were
    /// interrupted one after another: a beginning of the replies was written. No message after the
    /// one that was being answered was served.
    WriteFault,
    /// Want of memory: the replies before it were written. The message that was being answered has
    /// no reply, and may have been served.
    Memory,
}
