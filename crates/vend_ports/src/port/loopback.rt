//! A connection that a command makes: of the machine with itself, or with a desk that runs.

ghost use Rattle.std.specs.Prelude.{IfErr, IfOk};
ghost use Rattle.sts_fields.specs.Text.{Text};
ghost use Rattle.command_line.specs.declared.address.Address.{Address};
ghost use Rattle.vend_ports.specs.port.Sent.{IsSent};

use command_line::Address;
use std::io::{self, Read, Write};

/// What the one connection that a command makes comes of: of the machine with itself, where the
/// command has both ends, or with a desk. It is had once.
pub trait Loopback: Drop {
    /// An end of the connection.
    type Stream: Read + Write + Drop;

    /// A connection of the machine with itself was had, and nothing was sent on this end of it yet.
    ghost joins: { Self → Self.Stream → Type 0 };

    /// Such a connection was had. This text was sent on the first stream, and no more is; the other
    /// two read and write the other end.
    ghost connects: { Self → Text → Self.Stream → Self.Stream → Self.Stream → Type 0 };

    /// None could be had.
    ghost lacks: { Self → Type 0 };

    /// A connection with the desk at this address was had, and nothing was sent on it yet.
    ghost calls: { Self → Address → Self.Stream → Type 0 };

    /// None could be had there.
    ghost misses: { Self → Address → Type 0 };

    /// The connection of this end was let go.
    ghost ends: { (S : Type 0) → S → Type 0 };

    /// It was left: none was asked for.
    ghost leaves: { (T : Type 0) → T → Type 0 };

    /// Has a connection of the machine with itself, and sends a text on it.
    fn connect(self, text: &[u8]) -> io::Result<(Self::Stream, Self::Stream, Self::Stream)>
        ensures connects { IfOk result (λ ends. connects self text.now ends.0 ends.1 ends.2) }
        ensures sent { IfOk result
            (λ ends. IsSent Self.Stream.contents (joins self) text.now ends.0) }
        ensures lacks { IfErr result (λ error. lacks self) };

    /// Has a connection with the desk at an address. A desk that takes no call for ten seconds
    /// counts as silent: the call fails. So does each use of the connection once 120 seconds have
    /// passed since the call.
    fn call(self, address: Address) -> io::Result<Self::Stream>
        ensures calls { IfOk result (calls self address) }
        ensures misses { IfErr result (λ error. misses self address) };

    /// Lets the connection go. Whatever this is given, it can do nothing with it.
    fn end<S: Drop>(stream: S)
        ensures { ends S stream };

    /// Leaves it as it is. Whatever this is given, it can do nothing with it.
    fn leave<T: Drop>(it: T)
        ensures { leaves T it };
}
