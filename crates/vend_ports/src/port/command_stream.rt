//! The connection with a desk that a command has, and for how long it waits there.

ghost use Rattle.std.specs.Prelude.{◌≡◌, IfSome, ◌≤◌};
ghost use Rattle.std.specs.Duration.{as_nanos};
ghost use Rattle.std.specs.Io.{ReadsAtMost, WritesAtMost};
ghost use Rattle.std.specs.Io.KnownBytes.{ReadConsumes, WriteAppends};
ghost use Rattle.vend_ports.specs.port.Waits.{WaitEach, command_time};

use crate::port::network::{Connection, ReadsWithin, WritesWithin};
use crate::port::terminal::Terminal;
use crate::port::wait::{passed_since, slice, wait_left};
use std::io::{self, ErrorKind, Read, Write};
use std::time::{Clock, Duration, Instant};

/// A stream that is read and written until the command's time is over, which is one for all that
/// it does. Once a use of it has waited for two seconds, the terminal where the error output goes
/// is told so, once; where it goes elsewhere nothing is.
#[derive(Drop)]
pub struct CommandStream<'a, H, S> {
    host: &'a H,
    inner: S,
    // None where the clock could not be read.
    began: Option<Instant>,
    // Whether it is still to be told that the command waits.
    tells: bool,
}

impl<'a, H: Clock + Terminal, S> CommandStream<'a, H, S> {
    /// Nothing has been read or written. The command's time began then.
    pub(crate) fn new(host: &'a H, began: Option<Instant>, inner: S) -> CommandStream<'a, H, S>
        ensures { result.inner ≡ inner }
    {
        CommandStream {
            host,
            inner,
            began,
            tells: host.is_watched(),
        }
    }

    // For how long it waits next, if it may.
    fn next_wait(&self) -> Option<Duration>
        ensures { IfSome result (λ wait. as_nanos wait ≤ command_time) }
    {
        match wait_left(passed_since(self.began, self.host)) {
            Some(left) => Some(slice(left, self.tells)),
            None => None,
        }
    }

    // Tells that the command waits, if that is still to be told.
    fn tell(&mut self)
        ensures { self.new.inner ≡ self.old.inner }
    {
        if self.tells {
            self.tells = false;
            self.host.tell_waiting();
        }
    }
}

impl<H, S: Connection> CommandStream<'_, H, S> {
    /// Nothing more is written. The other end is told so.
    pub(crate) fn end_writing(&self) -> io::Result<()> {
        self.inner.end_writing()
    }
}

impl<H: Clock + Terminal, S: ReadsWithin> Read for CommandStream<'_, H, S> {
    ghost remaining = { λ stream. S.remaining stream.inner };

    fn read(&mut self, buf: &mut [u8]) -> io::Result<usize>
        ensures bound { ReadsAtMost result buf.new }
        ensures bytes { ReadConsumes (S.remaining self.old.inner) (S.remaining self.new.inner)
            result buf.new }
        ensures waits { WaitEach S.waits command_time self.old.inner self.new.inner }
    {
        for _ in 0..u64::MAX {
            let Some(wait) = self.next_wait() else {
                return Err(ErrorKind::TimedOut.into());
            };
            match self.inner.read_within(wait, buf) {
                Err(error) if error.kind() == ErrorKind::WouldBlock => self.tell(),
                result => return result,
            }
        }
        Err(ErrorKind::TimedOut.into())
    }
}

impl<H: Clock + Terminal, S: WritesWithin> Write for CommandStream<'_, H, S> {
    ghost contents = { λ stream. S.contents stream.inner };

    fn write(&mut self, buf: &[u8]) -> io::Result<usize>
        ensures bound { WritesAtMost result buf.now }
        ensures bytes { WriteAppends (S.contents self.old.inner) (S.contents self.new.inner)
            result buf.now }
        ensures waits { WaitEach S.waits command_time self.old.inner self.new.inner }
    {
        for _ in 0..u64::MAX {
            let Some(wait) = self.next_wait() else {
                return Err(ErrorKind::TimedOut.into());
            };
            match self.inner.write_within(wait, buf) {
                Err(error) if error.kind() == ErrorKind::WouldBlock => self.tell(),
                result => return result,
            }
        }
        Err(ErrorKind::TimedOut.into())
    }

    fn flush(&mut self) -> io::Result<()> {
        Ok(())
    }
}
