//! Whom a command that takes long tells how far it is.

use crate::print::audit_lines::put_passed;
use audit::{Follows, Part};
use std::io::IsTerminal;
use std::time::{Clock, Duration, Instant};
use vend_ports::{Terminal, Watched, put_opened, put_progress};

// So many seconds lie between two lines, at the least.
const PAUSE: u64 = 1;

/// Whom a command that takes long tells how far it is, and an audit which parts have passed. No
/// contract says what becomes of it.
pub trait Progress: Follows + Drop {
    /// Called after each page of an export: `printed` of `all` sales are printed.
    fn tell(&mut self, printed: u64, all: u64);

    /// The file of an audit is open, and is looked at.
    fn tell_opened(&mut self);
}

/// The error output, where it goes to a terminal, and what a command that takes long prints there.
pub trait Onlooker: Terminal {
    /// Whether the output goes to a terminal too.
    fn shows_output(&self) -> bool;

    /// Prints there that a part of an audit has passed.
    fn print_passed(&self, part: Part);

    /// Prints there how many of all sales are printed.
    fn print_progress(&self, printed: u64, all: u64);

    /// Prints there that a file is open.
    fn print_opened(&self);
}

impl Onlooker for HostRuntime {
    fn shows_output(&self) -> bool {
        self.stdout().is_terminal()
    }

    fn print_passed(&self, part: Part) {
        put_passed(part, &mut Watched::new(&mut self.stderr()));
    }

    fn print_progress(&self, printed: u64, all: u64) {
        put_progress(printed, all, &mut Watched::new(&mut self.stderr()));
    }

    fn print_opened(&self) {
        put_opened(&mut Watched::new(&mut self.stderr()));
    }
}

/// The terminal where the error output goes. Where the output goes to a terminal too, what it shows
/// tells how far an export is.
#[derive(Drop)]
pub struct TerminalProgress<'a, H: Clock + Onlooker> {
    host: &'a H,
    last: Option<Instant>,
}

impl<'a, H: Clock + Onlooker> TerminalProgress<'a, H> {
    /// The first line comes a second from now, or later.
    pub fn new(host: &'a H) -> TerminalProgress<'a, H> {
        TerminalProgress {
            host,
            last: Instant::now(host).ok(),
        }
    }

    // Whether the next line may come now.
    fn is_due(&mut self) -> bool {
        let (Some(last), Ok(now)) = (self.last, Instant::now(self.host)) else {
            return false;
        };
        if now.duration_since(last) < Duration::from_secs(PAUSE) {
            return false;
        }
        self.last = Some(now);
        true
    }
}

impl<H: Clock + Onlooker> Follows for TerminalProgress<'_, H> {
    ghost use Rattle.std.specs.Prelude.{⊤};

    // No contract says what a terminal shows.
    ghost told = { λ _ _ _. ⊤ };

    fn passed(&mut self, part: Part) {
        if self.host.is_watched() && self.is_due() {
            self.host.print_passed(part);
        }
    }
}

impl<H: Clock + Onlooker> Progress for TerminalProgress<'_, H> {
    fn tell(&mut self, printed: u64, all: u64) {
        if self.host.is_watched() && !self.host.shows_output() && self.is_due() {
            self.host.print_progress(printed, all);
        }
    }

    fn tell_opened(&mut self) {
        if self.host.is_watched() && self.is_due() {
            self.host.print_opened();
        }
    }
}
