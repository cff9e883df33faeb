//! A line that records each use.
ghost use Rattle.std.specs.Prelude.{◌≡◌, ◌≤◌, [], length, IfOk, Some};
ghost use Rattle.law_witnesses.specs.Recorded.{bytes_in, passed_in, uses_in};
ghost use Rattle.conversation.specs.Uses.{passed_of};

use conversation::Line;
use either::Either;
use http_server::Log;
use std::io::{self, ErrorKind, Read, Write};

// Bytes, for proofs alone.
type Noted = Log<u8, ()>;

/// The line that records each use, and tells contracts all of them. Only proofs read it, so it
/// takes no memory.
#[derive(Drop)]
pub(crate) struct Recorded {
    // A read for so many bytes or a write of these; and what moved, or whether it was interrupted.
    pub(crate) made: Log<Either<usize, Noted>, Result<Noted, bool>>,
}

impl Recorded {
    pub(crate) fn new() -> Recorded
        ensures { uses_in result.made ≡ [] }
    {
        Recorded { made: Log::new() }
    }
}

impl<R: Read, W: Write> Line<R, W> for Recorded {
    ghost uses = { λ line. Some (uses_in line.made) };

    fn read(&mut self, reader: &mut R, buffer: &mut [u8]) -> io::Result<usize> {
        let count = buffer.len();
        let came = reader.read(buffer);
        self.made = self.made.and(&Either::Left(count), &passed(buffer, &came));
        came
    }

    fn write(&mut self, writer: &mut W, text: &[u8]) -> io::Result<usize> {
        let came = writer.write(text);
        self.made = self
            .made
            .and(&Either::Right(noted(text)), &passed(text, &came));
        came
    }
}

// What came of a use.
fn passed(bytes: &[u8], came: &io::Result<usize>) -> Result<Noted, bool>
    requires { IfOk came.now (λ count. count ≤ length bytes.now) }
    ensures { passed_in result ≡ passed_of bytes.now came.now }
{
    match came {
        Ok(count) => Ok(noted(&bytes[..*count])),
        Err(error) => Err(error.kind() == ErrorKind::Interrupted),
    }
}

fn noted(bytes: &[u8]) -> Noted
    ensures { bytes_in result ≡ bytes.now }
{
    let mut noted = Log::new();
    for byte in bytes {
        noted = noted.and(byte, &());
    }
    noted
}
