//! Writers that take a part of what they are given, and then fail.
use crate::texts::examples::{first_sale, first_shift};
use crate::texts::printed::{put_export, put_receipt, put_report, receipt_of};
use office_rules::Sale;
use papers::TextFault;
use std::io::{self, Write};
use std::process::Abort;
use std::test::Fail;

// Takes so many bytes, at most three a call, and then fails.
#[derive(Drop)]
struct Failing {
    taken: Vec<u8>,
    room: usize,
}

impl Write for Failing {
    fn write(&mut self, buf: &[u8]) -> io::Result<usize> {
        if self.room == 0 {
            return Err(io::Error::from(io::ErrorKind::Interrupted));
        }
        let count = buf.len().min(self.room).min(3);
        self.taken.extend_from_slice(&buf[..count])?;
        self.room -= count;
        Ok(count)
    }

    fn flush(&mut self) -> io::Result<()> {
        Ok(())
    }
}

// What is taken where a writer fails after so many bytes, which are all or not.
fn takes_a_part(
    rt: &(impl Abort + AllocGlobal),
    sale: &Sale,
    text: &[u8],
    room: usize,
) -> Result<(), Fail> {
    let taken = Vec::new(rt.alloc());
    let mut out = Failing { taken, room };
    let is_whole = put_receipt(rt.alloc(), sale, &mut out).is_ok();
    assert!(rt; is_whole == (room == text.len()), "after {room} bytes");
    assert!(rt;
        Some(out.taken.as_slice()) == text.get(..room),
        "after {room} bytes"
    );
    Ok(())
}

#[test]
fn a_writer_fails_after_some_bytes(rt: HostRuntime) -> Result<(), Fail> {
    let sale = first_sale()?;
    let text = receipt_of(rt.alloc(), &sale)?;
    for room in 0..=text.len() {
        takes_a_part(&rt, &sale, &text, room)?;
    }
    Ok(())
}

// A slice takes no byte once it is full.
#[test]
fn a_writer_takes_no_byte(rt: HostRuntime) -> Result<(), Fail> {
    let mut room = [b'.'; 6];
    let sales: Vec<Sale> = vec![in rt.alloc(); first_sale()?; 1]?;
    let mut out = &mut room[..5];
    assert_eq!(rt;
        put_export(rt.alloc(), &sales, false, &mut out),
        Err(TextFault::Write)
    );
    assert!(rt; room == *b"1,138.");
    let mut out = &mut room[..5];
    assert_eq!(rt;
        put_report(rt.alloc(), &first_shift(None)?, &sales, &mut out),
        Err(TextFault::Write)
    );
    assert!(rt; room == *b"SHIFT.");
    Ok(())
}
