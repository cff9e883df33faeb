ghost use Rattle.std.specs.Prelude.{ℕ, List, Option, None, ⊤};
ghost use Rattle.std.specs.Io.{WritesAtMost};
ghost use Rattle.std.specs.Io.KnownBytes.{WriteAppends};
ghost use Rattle.papers.specs.Output.{TakesNothing};

use std::io::{self, Write};

/// What a text is handed to, by one write after another. It may tell contracts that a write failed
/// or took no byte, so that `TextFault::Write` is answered for no other cause.
pub trait Outlet {
    /// The bytes that it holds, where they are known.
    ghost contents: { Self → Option (List ℕ) } = { λ _. None };

    /// What holds once a write to it failed or took no byte.
    ghost failed: { Self → Type 0 } = { λ _. ⊤ };

    /// One write, of as many bytes of a text as are taken.
    fn put_some(&mut self, text: &[u8]) -> io::Result<usize>
        ensures bound { WritesAtMost result text.now }
        ensures bytes { WriteAppends (contents self.old) (contents self.new) result text.now }
        ensures told { TakesNothing text.now result → failed self.new };
}

/// Each writer is one that tells nothing of its failures.
impl<W: Write> Outlet for W {
    ghost contents = { λ out. W.contents out };

    ghost failed = { λ _. ⊤ };

    fn put_some(&mut self, text: &[u8]) -> io::Result<usize> {
        self.write(text)
    }
}
