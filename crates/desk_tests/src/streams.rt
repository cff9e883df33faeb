//! Readers and writers that give and take a little at a time, or fail.
use std::cell::Cell;
use std::io::{self, Read, Write};

/// Gives its bytes by so many at a time, and then ends or fails.
#[derive(Clone, Copy)]
pub(crate) struct Pieces<'a> {
    pub(crate) rest: &'a [u8],
    pub(crate) size: usize,
    pub(crate) fails: bool,
}

impl Read for Pieces<'_> {
    fn read(&mut self, buf: &mut [u8]) -> io::Result<usize> {
        if self.rest.is_empty() && self.fails {
            return Err(io::Error::from(io::ErrorKind::Other));
        }
        let count = self.size.min(buf.len()).min(self.rest.len());
        buf[..count].copy_from_slice(&self.rest[..count]);
        self.rest = &self.rest[count..];
        Ok(count)
    }
}

/// Takes so many bytes, at most three a call, and then fails.
#[derive(Drop)]
pub(crate) struct Failing {
    pub(crate) taken: Vec<u8>,
    pub(crate) room: usize,
}

impl Write for Failing {
    fn write(&mut self, buf: &[u8]) -> io::Result<usize> {
        if self.room == 0 {
            return Err(io::Error::from(io::ErrorKind::BrokenPipe));
        }
        let count = buf.len().min(self.room).min(3);
        self.taken.extend_from_slice(&buf[..count])?;
        self.room -= count;
        Ok(count)
    }

    fn flush(&mut self) -> io::Result<()> {
        Ok(())
    }
}

/// Which calls the system interrupts.
#[derive(Clone, Copy)]
pub(crate) enum Calls {
    /// The one of this number, from 0 on.
    One(usize),
    /// Two before each that it does not.
    TwoOfThree,
}

/// Passes calls on, but for those that the system interrupts.
#[derive(Drop)]
pub(crate) struct Interrupted<S> {
    pub(crate) inner: S,
    pub(crate) calls: Calls,
    /// How many calls were made.
    pub(crate) made: usize,
}

impl<S> Interrupted<S> {
    // Whether the system interrupts the next call.
    fn is_next(&mut self) -> bool {
        let made = self.made;
        self.made = made.saturating_add(1);
        match self.calls {
            Calls::One(number) => made == number,
            Calls::TwoOfThree => made % 3 != 2,
        }
    }
}

impl<R: Read> Read for Interrupted<R> {
    fn read(&mut self, buf: &mut [u8]) -> io::Result<usize> {
        if self.is_next() {
            return Err(io::Error::from(io::ErrorKind::Interrupted));
        }
        self.inner.read(buf)
    }
}

impl<W: Write> Write for Interrupted<W> {
    fn write(&mut self, buf: &[u8]) -> io::Result<usize> {
        if self.is_next() {
            return Err(io::Error::from(io::ErrorKind::Interrupted));
        }
        self.inner.write(buf)
    }

    fn flush(&mut self) -> io::Result<()> {
        self.inner.flush()
    }
}

/// Takes no byte, and says so without a failure.
#[derive(Clone, Copy)]
pub(crate) struct Full;

impl Write for Full {
    fn write(&mut self, _buf: &[u8]) -> io::Result<usize> {
        Ok(0)
    }

    fn flush(&mut self) -> io::Result<()> {
        Ok(())
    }
}

/// What a read has to find: so many bytes written by then, and no more asked for than this; and
/// what it gives.
pub(crate) type Step<'a> = (usize, usize, &'a [u8]);

/// Gives a step a read, and notes where less was written by then, or more was asked for.
#[derive(Drop)]
pub(crate) struct Asking<'a> {
    pub(crate) steps: &'a [Step<'a>],
    /// How many reads were made.
    pub(crate) count: usize,
    pub(crate) written: &'a Cell<usize>,
    pub(crate) late: bool,
    pub(crate) greedy: bool,
}

impl Read for Asking<'_> {
    fn read(&mut self, buf: &mut [u8]) -> io::Result<usize> {
        let at = self.count;
        self.count = at.saturating_add(1);
        if at >= self.steps.len() {
            return Ok(0);
        }
        let (before, most, piece) = self.steps[at];
        if self.written.get() < before {
            self.late = true;
        }
        if buf.len() > most {
            self.greedy = true;
        }
        let count = piece.len().min(buf.len());
        buf[..count].copy_from_slice(&piece[..count]);
        Ok(count)
    }
}

/// Takes all, and counts it where a reader sees it.
#[derive(Drop)]
pub(crate) struct Counting<'a> {
    pub(crate) written: &'a Cell<usize>,
}

impl Write for Counting<'_> {
    fn write(&mut self, buf: &[u8]) -> io::Result<usize> {
        self.written
            .set(self.written.get().saturating_add(buf.len()));
        Ok(buf.len())
    }

    fn flush(&mut self) -> io::Result<()> {
        Ok(())
    }
}
