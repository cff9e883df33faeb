ghost use Rattle.std.specs.Prelude.{◌≡◌, ◌↔◌, ◌∷◌, [], List, Option, None, IsTrue, length};
ghost use Rattle.std.specs.Io.{ReadsAtMost, WritesAtMost};
ghost use Rattle.std.specs.Io.KnownBytes.{ReadConsumes, WriteAppends};
ghost use Rattle.std.specs.IoError.{error_kind};
ghost use Rattle.std.specs.declared.io.ErrorKind.TheVariants.{Interrupted};
ghost use Rattle.conversation.specs.Uses.{Grows, Use, asked, passed_of, sent};

use std::io::{self, ErrorKind, Read, Write};

/// What each use of a reader and a writer of these types goes through, and of no other ones. It may
/// tell contracts which uses were made, in order: how many bytes each read asked for and what it
/// gave, and which ones each write offered and how many were taken.
pub trait Line<R: Read, W: Write> {
    /// The uses that were made so far, where they are told.
    ghost uses: { Self → Option (List Use) } = { λ _. None };

    /// One read, which asks for as many bytes as the buffer has.
    fn read(&mut self, reader: &mut R, buffer: &mut [u8]) -> io::Result<usize>
        ensures bound { ReadsAtMost result buffer.new }
        ensures bytes { ReadConsumes (R.remaining reader.old) (R.remaining reader.new) result
            buffer.new }
        ensures told { Grows (uses self.old) (uses self.new)
            (asked (length buffer.old) (passed_of buffer.new result) ∷ []) };

    /// One write, of as many bytes of a text as the writer takes.
    fn write(&mut self, writer: &mut W, text: &[u8]) -> io::Result<usize>
        ensures bound { WritesAtMost result text.now }
        ensures bytes { WriteAppends (W.contents writer.old) (W.contents writer.new) result
            text.now }
        ensures told { Grows (uses self.old) (uses self.new)
            (sent text.now (passed_of text.now result) ∷ []) };
}

/// The line that tells no use.
#[derive(Clone, Copy, Debug)]
pub struct Untold;

impl<R: Read, W: Write> Line<R, W> for Untold {
    ghost uses = { λ _. None };

    fn read(&mut self, reader: &mut R, buffer: &mut [u8]) -> io::Result<usize> {
        reader.read(buffer)
    }

    fn write(&mut self, writer: &mut W, text: &[u8]) -> io::Result<usize> {
        writer.write(text)
    }
}

// Whether the system interrupted a call, which did nothing then and may be made again.
pub(crate) fn is_interrupted(error: &io::Error) -> bool
    ensures { IsTrue result ↔ (error_kind error.now ≡ Interrupted) }
{
    error.kind() == ErrorKind::Interrupted
}
