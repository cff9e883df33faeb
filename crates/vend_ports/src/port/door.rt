//! What connections come by.

ghost use Rattle.std.specs.Prelude.{ℕ, IfSome, IfNone};
ghost use Rattle.command_line.specs.declared.address.Address.{Address};
ghost use Rattle.conversation.specs.declared.end.End.{End};
ghost use Rattle.vend_ports.specs.port.Port.{IsPortFor};

use command_line::Address;
use conversation::{End, Line};
use std::io::{Read, Write};

/// Where connections come in, one after another. Each has a half that is read and one that is
/// written, and is let go before the next one is taken. Each use makes another door of it, so that
/// what is told of the one that is left tells of all its uses.
pub trait Door: Drop {
    /// What a connection sends is read of this.
    type Reader: Read + Drop;

    /// What a connection is sent is written to this.
    type Writer: Write + Drop;

    /// Each use of a connection goes through this, which may tell which uses were made, in order.
    type Line: Line<Self::Reader, Self::Writer> + Drop;

    /// The door listens at an address, at this port, and is another one then.
    ghost listens: { Self → Address → ℕ → Self → Type 0 };

    /// The door could not listen at an address, and is another one then.
    ghost fails: { Self → Address → Self → Type 0 };

    /// A connection of these halves and this line came in, and the door is another one then.
    ghost accepts: { Self → Self.Reader → Self.Writer → Self.Line → Self → Type 0 };

    /// No connection could be had, and the door is another one then.
    ghost refuses: { Self → Self → Type 0 };

    /// The connection of these halves and this line was let go, as a conversation that ended so
    /// left them, and the door is another one then.
    ghost ends: { Self → Self.Reader → Self.Writer → Self.Line → End → Self → Type 0 };

    /// The door was left: nobody comes in by it any more.
    ghost leaves: { (T : Type 0) → T → Type 0 };

    /// Listens at an address, and answers at which port.
    fn listen(&mut self, address: Address) -> Option<u16>
        ensures listens { IfSome result (λ port. listens self.old address port self.new) }
        ensures port { IfSome result (IsPortFor address) }
        ensures fails { IfNone result (fails self.old address self.new) };

    /// The next connection, where one can be had.
    fn accept(&mut self) -> Option<(Self::Reader, Self::Writer, Self::Line)>
        ensures accepts { IfSome result (λ ends. accepts self.old ends.0 ends.1 ends.2 self.new) }
        ensures refuses { IfNone result (refuses self.old self.new) };

    /// Lets the halves of a connection and its line go, as a conversation that ended so left them.
    fn end(&mut self, reader: Self::Reader, writer: Self::Writer, line: Self::Line, end: End)
        ensures { ends self.old reader writer line end self.new };

    /// Leaves the door, which may never have listened. Whatever this is given, it can do nothing
    /// else with it.
    fn leave<T: Drop>(it: T)
        ensures { leaves T it };
}
