//! What is written for messages that expect an interim reply before they send their body, by
//! RFC 9110, section 10.1.1, and for those that expect nothing of the kind.
use crate::prepared::{hold, prepared};
use crate::streams::{Asking, Counting, Pieces, Step};
use crate::texts::bytes;
use desk::End;
use std::alloc::Global;
use std::cell::Cell;
use std::process::Abort;
use std::test::Fail;

// What is written for each input, and the input, as `texts` says: `1` stands for the interim reply,
// and `4` for the reply to a target that no route has.
fn rows() -> &'static str {
    "\
14 = POST / HTTP/1.1~Host: d~Content-Length: 2~Expect: 100-continue~~xx
14 = GET / HTTP/1.1~Host: d~Content-Length: 2~Expect: 100-continue~~xx
14 = POST / HTTP/1.1~Host: d~Content-Length: 2~EXPECT: 100-Continue~~xx
14 = POST / HTTP/1.1~Host: d~Content-Length: 2~Expect: something, 100-continue~~xx
14 = POST / HTTP/1.1~Host: d~Content-Length: 2~Expect: a~Expect: 100-continue~~xx
4 = POST / HTTP/1.1~Host: d~Content-Length: 2~Expect: something~~xx
4 = POST / HTTP/1.1~Host: d~Content-Length: 2~~xx
4 = POST / HTTP/1.1~Host: d~Content-Length: 0~Expect: 100-continue~~
4 = POST / HTTP/1.1~Host: d~Expect: 100-continue~~
1 = POST / HTTP/1.1~Host: d~Content-Length: 2~Expect: 100-continue~~
1 = POST / HTTP/1.1~Host: d~Content-Length: 2~Expect: 100-continue~~x
 = POST / HTTP/1.0~Content-Length: 2~Expect: 100-continue~~x
 = POST / HTTP/1.1~Host: d~Content-Length: 2~Expect: something~~x
1414 = POST / HTTP/1.1~Host: d~Content-Length: 1~Expect: 100-continue~~xPOST / HTTP/1.1~Host: d~Content-Length: 1~Expect: 100-continue~~x
44 = POST / HTTP/1.1~Host: d~Content-Length: 1~~xGET / HTTP/1.1~Host: d~Expect: 100-continue~~
41 = GET / HTTP/1.1~Host: d~~POST / HTTP/1.1~Host: d~Content-Length: 9~Expect: 100-continue~~x
"
}

const CONTINUE: &[u8] = b"HTTP/1.1 100 Continue\r\n\r\n";

const NO_ROUTE: &[u8] = b"HTTP/1.1 404 Not Found\r\nContent-Type: application/json\r\n\
    Content-Length: 19\r\nDate: Wed, 01 Jan 2014 00:00:30 GMT\r\n\r\n{\"error\":\"NoRoute\"}";

// The texts that the signs stand for.
fn written(alloc: Global, signs: &str) -> Result<Vec<u8>, Fail> {
    let mut text = Vec::new(alloc);
    for sign in signs.bytes() {
        text.extend_from_slice(if sign == b'1' { CONTINUE } else { NO_ROUTE })?;
    }
    Ok(text)
}

fn each_row(rt: &(impl Abort + AllocGlobal), size: usize) -> Result<(), Fail> {
    let alloc = rt.alloc();
    for line in rows().lines() {
        let (signs, input) = line.split_once(" = ").ok_or("no input")?;
        let input = bytes(alloc, input)?;
        let mut books = prepared(alloc)?;
        let mut reader = Pieces {
            rest: &input,
            size,
            fails: false,
        };
        let mut text = Vec::new(alloc);
        let end = hold(alloc, &mut books, &mut reader, &mut text).ok_or("no desk")?;
        assert_eq!(rt; text, written(alloc, signs)?, "{size} {line}");
        assert_eq!(rt; end, End::Closed, "{size} {line}");
    }
    Ok(())
}

// At once, byte by byte, and in pieces of seven bytes.
#[test]
fn what_is_written_for_each_input(rt: HostRuntime) -> Result<(), Fail> {
    assert_eq!(rt; rows().lines().count(), 16);
    for size in [usize::MAX, 1, 7] {
        each_row(&rt, size)?;
    }
    Ok(())
}

// The interim reply leaves before the body is asked for, and once: it has 25 bytes, the reply 134.
#[test]
fn it_is_written_before_the_body_is_read(rt: HostRuntime) -> Result<(), Fail> {
    let alloc = rt.alloc();
    assert_eq!(rt; (CONTINUE.len(), NO_ROUTE.len()), (25, 134));
    let head = b"POST / HTTP/1.1\r\nHost: d\r\nContent-Length: 3\r\nExpect: 100-continue\r\n\r\n";
    let steps: [Step<'_>; 4] = [
        (0, 8192, head),
        (25, 3, b"x"),
        (25, 2, b"xx"),
        (159, 8192, b""),
    ];
    let count = Cell::new(0);
    let mut reader = Asking {
        steps: &steps,
        count: 0,
        written: &count,
        late: false,
        greedy: false,
    };
    let mut writer = Counting { written: &count };
    let mut books = prepared(alloc)?;
    let end = hold(alloc, &mut books, &mut reader, &mut writer).ok_or("no desk")?;
    assert_eq!(rt; end, End::Closed);
    assert_eq!(rt;
        (reader.count, reader.late, reader.greedy),
        (4, false, false)
    );
    assert_eq!(rt; count.get(), 159);
    Ok(())
}
