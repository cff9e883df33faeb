//! Messages cut after every byte, what a message says of its body and end, and messages that are
//! refused.

use crate::prepared::SALE;
use crate::texts::{bytes, first};
use desk::{Method, Next, Received, next_of};
use std::alloc::Global;
use std::test::Fail;

// What each text begins with, and the text: a whole message by its method, target, body, whether it
// closes the conversation, and its length. `texts` says how the texts are written.
fn messages() -> &'static str {
    "\
Get,/sales/1/receipt,,false,42 = GET /sales/1/receipt HTTP/1.1~Host: d~~GET / HTTP/1.0~~
Get,/,,true,18 = GET / HTTP/1.0~~
NeedHead =\u{20}
Get,/a,,false,28 = ~|GET /a HTTP/1.1|hOsT: d||
NeedHead = ~|~
Get,/,,true,46 = GET / HTTP/1.1~Host: d~Connection: close~~
Get,/,,true,49 = GET / HTTP/1.1~connection: \t CLOSE ~Host: d~~
Get,/,,true,61 = GET / HTTP/1.1~Host: d~Connection: x~Connection: Close~~
Get,/,,false,51 = GET / HTTP/1.1~Host: d~Connection: keep-alive~~
Get,/,,true,49 = GET / HTTP/1.1~Host: d~Connection: close, x~~
Get,/,,true,51 = GET / HTTP/1.1~Host: d~Connection: te , CLOSE~~
Get,/,,false,50 = GET / HTTP/1.1~Host: d~Connection: closed, x~~
Get,/,,false,48 = GET / HTTP/1.1~Host: d~Connection: x close~~
Get,/,,true,36 = GET / HTTP/1.0~Host: d~Host: e~~
NeedBody { missing: 64, expects: false } = POST / HTTP/1.1~Host: d~Content-Length: 0064~~
NeedBody { missing: 7, expects: false } = POST / HTTP/1.1~Host: d~CONTENT-LENGTH: \t7 \t~~
NeedBody { missing: 12, expects: false } = GET / HTTP/1.1~Host: d~Content-Length:12~~
NeedBody { missing: 1, expects: false } = POST / HTTP/1.0~Content-Length: 000000000000000000000000000001~~
NeedBody { missing: 2, expects: true } = POST / HTTP/1.1~Host: d~Content-Length: 2~Expect: 100-continue~~
NeedBody { missing: 1, expects: true } = POST / HTTP/1.1~expect:\t100-Continue ~Host: d~Content-Length: 2~~x
NeedBody { missing: 2, expects: true } = POST / HTTP/1.1~Host: d~Content-Length: 2~Expect: x, 100-continue~~
NeedBody { missing: 2, expects: true } = POST / HTTP/1.1~Host: d~Content-Length: 2~Expect: x~Expect: 100-CONTINUE~~
NeedBody { missing: 2, expects: false } = POST / HTTP/1.1~Host: d~Content-Length: 2~Expect: 100-continued~~
NeedBody { missing: 2, expects: false } = POST / HTTP/1.1~Host: d~Content-Length: 2~Expect: 100~~
NeedBody { missing: 2, expects: false } = POST / HTTP/1.0~Content-Length: 2~Expect: 100-continue~~
Head,/,,true,19 = HEAD / HTTP/1.0~~
Get,/sales/1,,true,36 = GET http://d:80/sales/1 HTTP/1.0~~
Get,/sales?after=0,,true,42 = GET HTTPS://d@e/sales?after=0 HTTP/1.0~~
Get,?a=/b,,true,30 = GET http://d?a=/b HTTP/1.0~~
Get,,,true,25 = GET http://d HTTP/1.0~~
Get,http:/d/a,,true,26 = GET http:/d/a HTTP/1.0~~
Get,ftp://d/a,,true,26 = GET ftp://d/a HTTP/1.0~~
Get,/http://d/a,,true,28 = GET /http://d/a HTTP/1.0~~
Post,/,,false,47 = POST / HTTP/1.1~Host: d~Content-Length: 0~~
Delete,/,,false,30 = DELETE / HTTP/1.1~Host: d~~
Refused(Method) = delete / HTTP/1.1~~
Refused(Head) = \x01
Refused(Head) = GET  / HTTP/1.1~
Refused(Head) = GET / HTTP/2.0~
Refused(Head) = GET /^ HTTP/1.1~
Refused(Head) = GET / HTTP/1.1~Host: d~X: a~ b~~
Refused(Head) = GET / HTTP/1.1~Host : d~~
Refused(Head) = GET / HTTP/1.1~Host: d~X: a\0b~~
Refused(Head) = GET /\0 HTTP/1.1~Host: d~~
Refused(Head) = GET / HTTP/1.1~Host: d~X: a$b~~
Refused(Head) = GET / HTTP/1.1$Host: d$$
Refused(Method) = PUT / HTTP/1.1~~
Refused(Method) = OPTIONS / HTTP/1.0~~
Refused(Method) = head / HTTP/1.0~~
Refused(Method) = get / HTTP/1.1~Host: d~~
Refused(Host) = GET / HTTP/1.1~~
Refused(Host) = GET / HTTP/1.1~Host: d~Host: d~~
Refused(Coding) = POST / HTTP/1.1~Host: d~transfer-encoding: chunked~Content-Length: x~~
Refused(Coding) = POST / HTTP/1.0~Transfer-Encoding:~~
Refused(Length) = POST / HTTP/1.0~Content-Length: 1~content-length: 1~~
Refused(Length) = POST / HTTP/1.0~Content-Length: ~~
Refused(Length) = POST / HTTP/1.0~Content-Length: +1~~
Refused(Length) = POST / HTTP/1.0~Content-Length: 1 2~~
Refused(Length) = POST / HTTP/1.0~Content-Length: 1, 1~~
Refused(Body) = POST / HTTP/1.0~Content-Length: 99999999999999999999999999~~
"
}

fn named(alloc: Global, next: Next<'_>) -> Result<String, Fail> {
    match next {
        Next::Whole(message) => {
            let (method, closes, len) = (message.method, message.closes, message.len);
            let (target, body) = (
                str::from_utf8(message.target)?,
                str::from_utf8(message.body)?,
            );
            Ok(format!(in alloc; "{method:?},{target},{body},{closes},{len}")?)
        }
        other => Ok(format!(in alloc; "{other:?}")?),
    }
}

#[test]
fn what_each_message_says(rt: HostRuntime) -> Result<(), Fail> {
    for line in messages().lines() {
        let (wanted, text) = line.split_once(" = ").ok_or("no message")?;
        let text = bytes(rt.alloc(), text)?;
        let found = named(rt.alloc(), next_of(&text))?;
        assert_eq!(rt; found.as_str(), wanted, "{line}");
    }
    assert_eq!(rt; messages().lines().count(), 60);
    Ok(())
}

#[test]
fn a_sale_cut_after_every_byte(rt: HostRuntime) {
    assert_eq!(rt; SALE.len(), 117);
    let sale = Next::Whole(Received {
        method: Method::Post,
        target: b"/sales",
        body: &SALE[53..],
        closes: false,
        expects: false,
        len: 117,
    });
    assert_eq!(rt; next_of(SALE), sale);
    for cut in 0..117 {
        let next = next_of(first(SALE, cut));
        if cut < 53 {
            assert_eq!(rt; next, Next::NeedHead, "{cut}");
        } else {
            let lacking = Next::NeedBody {
                missing: 117 - cut,
                expects: false,
            };
            assert_eq!(rt; next, lacking, "{cut}");
        }
    }
}
