//! The desk over memory and over a connection, and what is told where they differ.

ghost use Rattle.std.specs.Prelude.{⊤};

use command_line::{Address, SelfcheckWords, Shipped};
use std::io;
use std::io::{ErrorKind, Read};
use std::net::TcpStream;
use std::test::Fail;
use sts_token::{Demo, Plain};
use vend_commands::{
    CommandEnd, Loopback, Watched, gives_exactly, replies_over_memory, run_selfcheck,
};

// The replies to a sale and to a call for its receipt.
const REPLIES: &[u8] = b"HTTP/1.1 200 OK\r\nContent-Type: application/json\r\n\
    Content-Length: 189\r\nDate: Wed, 01 Jan 2014 00:00:30 GMT\r\n\r\n\
    {\"base\":2014,\"change\":0,\"meter\":\"12345678903\",\"moment\":1388534430,\"number\":1,\
    \"operator\":\"ann\",\"price\":10,\"ref\":\"A-1\",\"shift\":1,\"tender\":10,\"tenths\":1,\
    \"tid\":2,\"token\":\"00072057602627981690\"}\
    HTTP/1.1 200 OK\r\nContent-Type: text/plain\r\nContent-Length: 118\r\n\
    Date: Wed, 01 Jan 2014 00:00:30 GMT\r\n\r\n\
    SALE 1\nMETER 12345678903\nTIME 2014-01-01T00:00:30Z\nKWH 0.1\nPRICE 10\nTENDER 10\n\
    CHANGE 0\nTOKEN 0007 2057 6026 2798 1690\n";

// The first bytes of the replies, at most so many.
fn first(count: usize) -> &'static [u8] {
    let count = REPLIES.len().min(count);
    &REPLIES[..count]
}

// Gives these bytes, two at a time, and then fails.
#[derive(Clone, Copy)]
struct Breaking<'a> {
    bytes: &'a [u8],
}

impl Read for Breaking<'_> {
    fn read(&mut self, buf: &mut [u8]) -> io::Result<usize> {
        if self.bytes.is_empty() {
            return Err(io::Error::from(ErrorKind::ConnectionReset));
        }
        let count = buf.len().min(self.bytes.len()).min(2);
        buf[..count].copy_from_slice(&self.bytes[..count]);
        self.bytes = &self.bytes[count..];
        Ok(count)
    }
}

// A machine that has no connection with itself.
#[derive(Drop)]
struct NoNet;

impl Loopback for NoNet {
    type Stream = TcpStream;

    ghost joins = { λ _ _. ⊤ };

    ghost connects = { λ _ _ _ _ _. ⊤ };

    ghost lacks = { λ _. ⊤ };

    ghost calls = { λ _ _ _. ⊤ };

    ghost misses = { λ _ _. ⊤ };

    ghost ends = { λ _ _. ⊤ };

    ghost leaves = { λ _ _. ⊤ };

    fn connect(self, _text: &[u8]) -> io::Result<(TcpStream, TcpStream, TcpStream)> {
        Err(io::Error::from(ErrorKind::ConnectionRefused))
    }

    fn call(self, _address: Address) -> io::Result<TcpStream> {
        Err(io::Error::from(ErrorKind::ConnectionRefused))
    }

    fn end<S: Drop>(stream: S)
        ensures { ⊤ }
    {
        drop(stream);
    }

    fn leave<T: Drop>(it: T)
        ensures { ⊤ }
    {
        drop(it);
    }
}

#[test]
fn replies(rt: HostRuntime) -> Result<(), Fail> {
    assert_eq!(rt; REPLIES.len(), 519);
    let Ok(plain) = replies_over_memory(rt.alloc(), Plain) else {
        return Err("no replies".into());
    };
    assert_eq!(rt; plain.as_slice(), REPLIES);
    // The other transform gives another token, in both replies, and nothing else differs.
    let Ok(demo) = replies_over_memory(rt.alloc(), Demo) else {
        return Err("no replies".into());
    };
    assert_eq!(rt; demo.len(), REPLIES.len());
    assert_eq!(rt; demo.get(..276), REPLIES.get(..276));
    assert_eq!(rt; demo.get(296..494), REPLIES.get(296..494));
    assert!(rt; demo.get(276..296) != REPLIES.get(276..296));
    assert!(rt; demo.get(494..518) != REPLIES.get(494..518));
    Ok(())
}

#[test]
fn other_replies(rt: HostRuntime) -> Result<(), Fail> {
    let rows: [(&[u8], bool); 7] = [
        (REPLIES, true),
        (b"", false),
        (first(518), false),
        (first(298), false),
        (first(1), false),
        (&[0; 519], false),
        (&[0; 520], false),
    ];
    for (bytes, same) in rows {
        let mut reader = bytes;
        assert_eq!(rt; gives_exactly(rt.alloc(), &mut reader, REPLIES)?, same);
        assert!(rt; reader.is_empty());
    }
    let mut longer = Vec::from_slice(rt.alloc(), REPLIES)?;
    longer.push(10)?;
    assert!(rt; !gives_exactly(rt.alloc(), &mut longer.as_slice(), REPLIES)?);
    assert!(rt; !gives_exactly(rt.alloc(), &mut longer.as_slice(), b"")?);
    Ok(())
}

#[test]
fn a_reader_fails(rt: HostRuntime) -> Result<(), Fail> {
    for len in [0, 1, 518, 519] {
        let mut reader = Breaking { bytes: first(len) };
        let given = gives_exactly(rt.alloc(), &mut reader, REPLIES);
        assert_eq!(rt;
            given.map_err(|error| error.kind()),
            Err(ErrorKind::ConnectionReset)
        );
    }
    Ok(())
}

#[test]
fn nobody_answers(rt: HostRuntime) -> Result<(), Fail> {
    let words = SelfcheckWords {
        transform: Shipped::Plain,
    };
    let mut out = Vec::new(rt.alloc());
    let mut err = Vec::new(rt.alloc());
    let mut output = Watched::new(&mut out);
    let mut errors = Watched::new(&mut err);
    let end = run_selfcheck(&words, rt.alloc(), NoNet, &mut output, &mut errors);
    assert_eq!(rt; end, CommandEnd::Refused);
    assert!(rt; out.is_empty());
    assert_eq!(rt; err.as_slice(), b"net\n".as_slice());
    Ok(())
}
