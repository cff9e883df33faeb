//! What a conversation asks its reader for, and how much it holds, as a line notes it.

use crate::prepared::{NO_HEAD, RECEIPT, SALE, hold_over, prepared};
use crate::streams::Pieces;
use desk::{Line, Untold};
use std::alloc::Global;
use std::io::{self, Read, Write};
use std::process::Abort;
use std::test::Fail;

// What passed a line.
#[derive(Clone, Copy, Debug, PartialEq, Eq)]
enum Passed {
    /// A read that asked for so many bytes, of which so many came.
    Read(usize, usize),
    /// A write of so many bytes, of which a vector takes all.
    Sent(usize),
}

/// Notes what passes a line, and tells contracts what that one tells.
#[derive(Drop)]
struct Noting<L> {
    line: L,
    passed: Vec<Passed>,
}

impl<R: Read, W: Write, L: Line<R, W>> Line<R, W> for Noting<L> {
    ghost uses = { λ noting. L.uses noting.line };

    fn read(&mut self, reader: &mut R, buffer: &mut [u8]) -> io::Result<usize> {
        let asked = buffer.len();
        match self.line.read(reader, buffer) {
            Ok(came) => {
                let _ = self.passed.push(Passed::Read(asked, came));
                Ok(came)
            }
            Err(error) => Err(error),
        }
    }

    fn write(&mut self, writer: &mut W, text: &[u8]) -> io::Result<usize> {
        let _ = self.passed.push(Passed::Sent(text.len()));
        self.line.write(writer, text)
    }
}

// What passes where an input comes by so many bytes at a time.
fn noted(alloc: Global, input: &[u8], size: usize) -> Result<Vec<Passed>, Fail> {
    let mut reader = Pieces {
        rest: input,
        size,
        fails: false,
    };
    let mut text = Vec::new(alloc);
    let mut line = Noting {
        line: Untold,
        passed: Vec::new(alloc),
    };
    let mut books = prepared(alloc)?;
    let _ = hold_over(alloc, &mut line, &mut books, &mut reader, &mut text).ok_or("no desk")?;
    Ok(line.passed)
}

// The most bytes that were held and asked for at a time. In these inputs a reply leaves nothing
// that came before it.
fn most(passed: &[Passed]) -> usize {
    let (mut held, mut most) = (0_usize, 0);
    for one in passed {
        match one {
            Passed::Read(asked, came) => {
                most = held.saturating_add(*asked).max(most);
                held = held.saturating_add(*came);
            }
            Passed::Sent(_) => held = 0,
        }
    }
    most
}

// A message to no route, with so many bytes of a head and so many of a body.
fn message(alloc: Global, head: usize, body: usize) -> Result<Vec<u8>, Fail> {
    let front = format!(in alloc; "POST / HTTP/1.1\r\nHost: d\r\nContent-Length: {body}\r\nX: ")?;
    let mut text = front.into_bytes();
    text.resize(head.saturating_sub(4), b'x')?;
    text.extend_from_slice(b"\r\n\r\n")?;
    text.resize(head.saturating_add(body), b' ')?;
    Ok(text)
}

fn asks_at_most(
    rt: &(impl Abort + AllocGlobal),
    input: &[u8],
    size: usize,
    bytes: usize,
) -> Result<(), Fail> {
    let found = noted(rt.alloc(), input, size)?;
    assert_eq!(rt; most(&found), bytes, "{size}");
    Ok(())
}

#[test]
fn no_more_is_held_than_the_longest_message(rt: HostRuntime) -> Result<(), Fail> {
    let alloc = rt.alloc();
    // A first read asks for 1024 bytes, and so does each behind small pieces; 52 do not end a head.
    asks_at_most(&rt, b"", usize::MAX, 1024)?;
    asks_at_most(&rt, SALE, usize::MAX, 1024)?;
    asks_at_most(&rt, SALE, 1, 52 + 1024)?;
    let longest = message(alloc, 8192, 1_048_576)?;
    asks_at_most(&rt, &longest, usize::MAX, 1_056_768)?;
    asks_at_most(&rt, &longest, 8000, 1_056_768)?;
    let short_head = message(alloc, 100, 1_048_576)?;
    asks_at_most(&rt, &short_head, usize::MAX, 1_048_676)?;
    // Neither is awaited: a head without its end, and a body that is too long.
    let no_end = message(alloc, 8196, 0)?;
    asks_at_most(&rt, &no_end, usize::MAX, 8192)?;
    let too_long = message(alloc, 100, 1_048_577)?;
    asks_at_most(&rt, &too_long, usize::MAX, 1024)
}

// A read asks for no more than a head or its body still lacks, the replies leave before the next
// one, and the refusal is last.
#[test]
fn reads_and_replies_in_turn(rt: HostRuntime) -> Result<(), Fail> {
    let alloc = rt.alloc();
    let mut input = Vec::new(alloc);
    for part in [SALE, RECEIPT, b"GET"] {
        input.extend_from_slice(part)?;
    }
    let found = noted(alloc, &input, 60)?;
    let expected = [
        Passed::Read(1024, 60),
        Passed::Read(57, 57),
        Passed::Sent(298),
        Passed::Read(1024, 45),
        Passed::Sent(221),
        Passed::Read(1024, 0),
        Passed::Sent(NO_HEAD.len()),
    ];
    assert_eq!(rt; found.as_slice(), expected.as_slice());
    Ok(())
}
