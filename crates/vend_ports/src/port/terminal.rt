//! Where a person who waits is told how a command gets on.

use crate::print::lines::put_waiting;
use crate::print::watched::Watched;
use std::io::IsTerminal;

/// The error output, where it goes to a terminal.
pub trait Terminal {
    /// Whether it goes to one.
    fn is_watched(&self) -> bool;

    /// Tells there that the command waits.
    fn tell_waiting(&self);
}

impl Terminal for HostRuntime {
    fn is_watched(&self) -> bool {
        self.stderr().is_terminal()
    }

    fn tell_waiting(&self) {
        put_waiting(&mut Watched::new(&mut self.stderr()));
    }
}
