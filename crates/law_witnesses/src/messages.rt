//! The laws of messages.
ghost use Rattle.std.specs.Prelude.{◌≡◌, IfSome};
ghost use Rattle.law_witnesses.specs.Readings.{IsEchoed};

use conversation::{End, MessageFault, Received, Script, Service, Untold, message_law, run};
use std::alloc::{AllocError, Global};
use std::io::{self, Read};
use std::test::Fail;

/// Replies to each message by its target.
#[derive(Clone, Copy)]
struct Echo;

impl Service<()> for Echo {
    ghost use Rattle.std.specs.Prelude.{[]};
    ghost use Rattle.law_witnesses.specs.Readings.{Echoes};

    ghost step = { Echoes };

    ghost refusal = { λ _. [] };

    fn answer<C: conversation::Clock>(
        &self,
        alloc: Global,
        _office: &mut (),
        _clock: &mut C,
        message: &Received<'_>,
    ) -> Result<Vec<u8>, AllocError> {
        let reply = Vec::from_slice(alloc, message.target)?;
        Ok(reply)
    }

    fn refuse(&self, alloc: Global, _fault: MessageFault) -> Result<Vec<u8>, AllocError> {
        Ok(Vec::new(alloc))
    }
}

/// Gives its bytes one at a time.
#[derive(Clone, Copy)]
struct Bytes<'a> {
    rest: &'a [u8],
}

impl Read for Bytes<'_> {
    ghost use Rattle.std.specs.Prelude.{Some};

    ghost remaining = { λ bytes. Some bytes.rest.now };

    fn read(&mut self, buf: &mut [u8]) -> io::Result<usize> {
        let count = buf.len().min(self.rest.len()).min(1);
        buf[..count].copy_from_slice(&self.rest[..count]);
        self.rest = &self.rest[count..];
        Ok(count)
    }
}

// What is replied to all of an input, which the reader has.
fn echoed<R: Read + Drop>(alloc: Global, input: &[u8], mut reader: R) -> Option<Vec<u8>>
    requires { R.remaining reader ≡ Some input.now }
    ensures { IfSome result (λ text. IsEchoed input.now text.items) }
{
    let mut text = Vec::new(alloc);
    let mut clock = Script::new(0, &[]);
    let end = run(
        &Echo,
        alloc,
        &mut Untold,
        &mut reader,
        &mut text,
        &mut (),
        &mut clock,
    );
    if matches!(end, End::Closed) {
        Some(text)
    } else {
        None
    }
}

// An input is read at once, and byte by byte.
fn echoed_twice(alloc: Global, input: &[u8]) -> Option<(Vec<u8>, Vec<u8>)>
    ensures { IfSome result (λ both. both.0.items ≡ both.1.items) }
{
    message_law();
    let first = echoed(alloc, input, input)?;
    let again = echoed(alloc, input, Bytes { rest: input })?;
    Some((first, again))
}

#[test]
fn an_input_has_one_reading(rt: HostRuntime) -> Result<(), Fail> {
    let input = b"GET /a HTTP/1.0\r\n\r\n";
    let (first, again) = echoed_twice(rt.alloc(), input).ok_or("no reading")?;
    assert_eq!(rt; first.as_slice(), b"/a".as_slice());
    assert_eq!(rt; again, first);
    Ok(())
}
