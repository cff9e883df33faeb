//! Bytes, messages and replies by texts.

use std::alloc::{AllocError, Global};
use std::test::Fail;

/// The first bytes of an input, at most so many.
pub(crate) fn first(input: &[u8], count: usize) -> &[u8] {
    let count = input.len().min(count);
    &input[..count]
}

/// The bytes of a text in which `'` stands for `"`, `|` for a line feed, `$` for a carriage return,
/// `~` for both, and `^` for the byte 255.
pub(crate) fn bytes(alloc: Global, text: &str) -> Result<Vec<u8>, AllocError> {
    let mut bytes = Vec::new(alloc);
    for byte in text.bytes() {
        if byte == b'~' {
            bytes.push(b'\r')?;
        }
        bytes.push(match byte {
            b'\'' => b'"',
            b'|' | b'~' => b'\n',
            b'$' => b'\r',
            b'^' => 255,
            _ => byte,
        })?;
    }
    Ok(bytes)
}

/// A message with a body, or without: `POST /tariffs = {'name':..}`, `GET /sales/1`.
pub(crate) fn message(alloc: Global, text: &str) -> Result<Vec<u8>, AllocError> {
    let (line, body) = text.split_once(" = ").unwrap_or((text, ""));
    let body = bytes(alloc, body)?;
    let len = body.len();
    let head = format!(in alloc; "{line} HTTP/1.1\r\nHost: d\r\nContent-Length: {len}\r\n\r\n")?;
    let mut message = head.into_bytes();
    message.extend_from_slice(&body)?;
    Ok(message)
}

// The seconds of the lists that are moments, and their dates, by another program.
fn dates() -> &'static str {
    "\
784111777 Sun, 06 Nov 1994 08:49:37 GMT
1388534430 Wed, 01 Jan 2014 00:00:30 GMT
1391212799 Fri, 31 Jan 2014 23:59:59 GMT
1391212800 Sat, 01 Feb 2014 00:00:00 GMT
1393632000 Sat, 01 Mar 2014 00:00:00 GMT
1590926460 Sun, 31 May 2020 12:01:00 GMT
1590926520 Sun, 31 May 2020 12:02:00 GMT
1590926580 Sun, 31 May 2020 12:03:00 GMT
1591009200 Mon, 01 Jun 2020 11:00:00 GMT
1591012800 Mon, 01 Jun 2020 12:00:00 GMT
1593561600 Wed, 01 Jul 2020 00:00:00 GMT
1732479359 Sun, 24 Nov 2024 20:15:59 GMT
4102358399 Wed, 30 Dec 2099 23:59:59 GMT
4102358400 Thu, 31 Dec 2099 00:00:00 GMT
4102444799 Thu, 31 Dec 2099 23:59:59 GMT
"
}

// The date of this second, if it is a moment.
fn date_of(second: i64) -> Result<Option<&'static str>, Fail> {
    for line in dates().lines() {
        let (moment, date) = line.split_once(' ').ok_or("no date")?;
        let moment: u32 = moment.parse()?;
        if i64::from(moment) == second {
            return Ok(Some(date));
        }
    }
    Ok(None)
}

// The message was refused before the clock was read for it.
fn is_refusal(status: &str) -> bool {
    matches!(
        status,
        "400 Bad Request" | "413 Payload Too Large" | "501 Not Implemented"
    )
}

/// A reply at this second by its status, the length of its body, further fields if there are any,
/// and its body, which is JSON if it begins with `{`, as in
/// `405 Method Not Allowed, 18, Allow: POST~ = {'error':'Method'}`. It has the date of the second,
/// if that is a moment, but for the refusal of a message.
pub(crate) fn reply_at(alloc: Global, second: i64, text: &str) -> Result<Vec<u8>, Fail> {
    let (status, _) = text.split_once(", ").ok_or("no length")?;
    match date_of(second)? {
        Some(date) if !is_refusal(status) => {
            let line = format!(in alloc; "Date: {date}~")?;
            dated(alloc, line.as_str(), text)
        }
        _ => dated(alloc, "", text),
    }
}

/// The same without a date.
pub(crate) fn reply(alloc: Global, text: &str) -> Result<Vec<u8>, Fail> {
    dated(alloc, "", text)
}

// The same with this line behind the length.
fn dated(alloc: Global, date: &str, text: &str) -> Result<Vec<u8>, Fail> {
    let (head, body) = text.split_once(" = ").ok_or("no body")?;
    let (status, head) = head.split_once(", ").ok_or("no length")?;
    let (len, fields) = head.split_once(", ").unwrap_or((head, ""));
    let kind = if body.starts_with("{") {
        "application/json"
    } else {
        "text/plain"
    };
    let line = format!(in alloc; "HTTP/1.1 {status}\r\nContent-Type: {kind}\r\n")?;
    let more = format!(in alloc; "Content-Length: {len}~{date}{fields}~{body}")?;
    let mut reply = line.into_bytes();
    reply.extend_from_slice(&bytes(alloc, more.as_str())?)?;
    Ok(reply)
}
