//! An office in memory that can sell to a meter, messages to it, and what is written for them.
use books::Books;
use desk::{Desk, End, Line, Script};
use office_testing::both::serve;
use office_testing::lines::stamped_of;
use office_testing::values::FIRST_DAY;
use sqlite::MemStore;
use std::alloc::Global;
use std::io::{Read, Write};
use std::test::Fail;
use sts_token::Plain;

/// A sale, with a body of 64 bytes: a head of 53 bytes, and 117 in all.
pub(crate) const SALE: &[u8] = b"POST /sales HTTP/1.1\r\nHost: d\r\nContent-Length: 64\r\n\r\n\
    {\"meter\":\"12345678903\",\"operator\":\"ann\",\"ref\":\"A-1\",\"tender\":10}";

/// A call for the receipt of sale 1.
pub(crate) const RECEIPT: &[u8] = b"GET /sales/1/receipt HTTP/1.1\r\nHost: d\r\n\r\n";

/// What is written for the sale: 298 bytes.
pub(crate) const SOLD: &[u8] = b"HTTP/1.1 200 OK\r\nContent-Type: application/json\r\n\
    Content-Length: 189\r\nDate: Wed, 01 Jan 2014 00:00:30 GMT\r\n\r\n\
    {\"base\":2014,\"change\":0,\"meter\":\"12345678903\",\"moment\":1388534430,\"number\":1,\
    \"operator\":\"ann\",\"price\":10,\"ref\":\"A-1\",\"shift\":1,\"tender\":10,\"tenths\":1,\
    \"tid\":2,\"token\":\"00072057602627981690\"}";

/// What is written for its receipt: 221 bytes.
pub(crate) const PRINTED: &[u8] =
    b"HTTP/1.1 200 OK\r\nContent-Type: text/plain\r\nContent-Length: 118\r\n\
    Date: Wed, 01 Jan 2014 00:00:30 GMT\r\n\r\n\
    SALE 1\nMETER 12345678903\nTIME 2014-01-01T00:00:30Z\nKWH 0.1\nPRICE 10\nTENDER 10\n\
    CHANGE 0\nTOKEN 0007 2057 6026 2798 1690\n";

/// What is written where no head begins the input.
pub(crate) const NO_HEAD: &[u8] = b"HTTP/1.1 400 Bad Request\r\nContent-Type: application/json\r\n\
    Content-Length: 16\r\nConnection: close\r\n\r\n{\"error\":\"Head\"}";

fn office() -> &'static str {
    "\
1388534430 add-tariff flat :100
1388534430 add-meter 12345678903 2014 flat 0000000000000000
1388534430 open-shift ann
"
}

/// An office in memory that can sell to a meter, with ann's open shift.
pub(crate) fn prepared(alloc: Global) -> Result<Books<MemStore, Plain>, Fail> {
    let mut books = Books::in_memory(alloc, Plain)?;
    for line in office().lines() {
        let _ = serve(&mut books, &stamped_of(alloc, 0, line)?)?;
    }
    Ok(books)
}

/// How the conversation with it ends, whose clock stands still. It has no clause, so that the proof
/// of a test does not carry what the desk promises.
pub(crate) fn hold<R: Read, W: Write>(
    alloc: Global,
    books: &mut Books<MemStore, Plain>,
    reader: &mut R,
    writer: &mut W,
) -> Option<End> {
    let desk = Desk::new(alloc).ok()?;
    let mut clock = Script::new(FIRST_DAY, &[]);
    Some(desk.run(alloc, reader, writer, books, &mut clock))
}

/// The same over a line.
pub(crate) fn hold_over<L: Line<R, W>, R: Read, W: Write>(
    alloc: Global,
    line: &mut L,
    books: &mut Books<MemStore, Plain>,
    reader: &mut R,
    writer: &mut W,
) -> Option<End> {
    let desk = Desk::new(alloc).ok()?;
    let mut clock = Script::new(FIRST_DAY, &[]);
    Some(desk.run_over(alloc, line, reader, writer, books, &mut clock))
}
