//! What runs are made of.
use std::io::{self, ErrorKind, Write};
use std::test::Fail;

/// Takes so many bytes, at most three a call, and then fails.
#[derive(Drop)]
pub(crate) struct Failing {
    pub(crate) taken: Vec<u8>,
    pub(crate) room: usize,
}

impl Write for Failing {
    fn write(&mut self, buf: &[u8]) -> io::Result<usize> {
        if self.room == 0 {
            return Err(io::Error::from(ErrorKind::BrokenPipe));
        }
        let count = buf.len().min(self.room).min(3);
        self.taken.extend_from_slice(&buf[..count])?;
        self.room -= count;
        Ok(count)
    }

    fn flush(&mut self) -> io::Result<()> {
        Ok(())
    }
}

/// The words of a line.
pub(crate) fn words_of<'a>(rt: &HostRuntime, line: &'a str) -> Result<Vec<&'a str>, Fail> {
    Ok(line.split_ascii_whitespace().collect(rt.alloc())?)
}
