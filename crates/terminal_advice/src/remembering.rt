use crate::begun::Begun;
use crate::last_line::LastLine;
use std::io::{self, Write};
use std::marker::PhantomData;

/// A writer that hands each byte on at once, and remembers the last line. `B` stands for what the
/// inner writer held when this began.
#[derive(Drop)]
pub(crate) struct Remembering<W: Write, B: Begun> {
    inner: W,
    last: LastLine,
    begun: PhantomData<B>,
    ghost remembers: { ∥ Remembers B.held (W.contents inner) last ∥₁ },
}

ghost use Rattle.terminal_advice.specs.Remembers.{Remembers};

impl<W: Write, B: Begun> Remembering<W, B> {
    ghost use Rattle.std.specs.Prelude.{◌≡◌};

    /// Nothing was written.
    pub(crate) fn new(inner: W) -> Remembering<W, B>
        requires { W.contents inner ≡ B.held }
        ensures { result.inner ≡ inner }
    {
        Remembering {
            inner,
            last: LastLine::new(),
            begun: PhantomData,
        }
    }

    /// The writer again, and the last line of what was written.
    pub(crate) fn into_parts(self) -> (W, LastLine)
        ensures inner { result.0 ≡ self.inner }
        ensures last { ∥ Remembers B.held (W.contents result.0) result.1 ∥₁ }
    {
        (self.inner, self.last)
    }
}

impl<W: Write, B: Begun> Write for Remembering<W, B> {
    ghost contents = { λ writer. W.contents writer.inner };

    fn write(&mut self, buf: &[u8]) -> io::Result<usize> {
        match self.inner.write(buf) {
            Ok(count) => {
                self.last.pass(&buf[..count]);
                Ok(count)
            }
            Err(error) => Err(error),
        }
    }

    fn flush(&mut self) -> io::Result<()> {
        self.inner.flush()
    }
}
