ghost use Rattle.std.specs.Prelude.{◌≡◌, ◌++◌, IfOk, OnOk, Some, codes, decimal, length};
ghost use Rattle.http.specs.StatusCode.{IsStatusCode};
ghost use Rattle.desk_messages.specs.reply.Body.{body_of};
ghost use Rattle.desk_messages.specs.reply.Head.{head_of};
ghost use Rattle.desk_messages.specs.reply.Text.{allow_line, connection_line, date_line};
ghost use Rattle.desk_messages.specs.reply.Text.{field_line, head_text, media_type};
ghost use Rattle.desk_messages.specs.reply.Text.{reply_bytes_of, reply_text, reply_to};
ghost use Rattle.desk_messages.specs.reply.Text.{status_line};

use crate::reply::body::{body_of, sale_told};
use crate::reply::form::Form;
use crate::reply::head::ReplyHead;
use crate::reply::http_date::http_date;
use crate::reply::outcome::Outcome;
use crate::reply::sale_text::sale_text;
use conversation::Method;
use http::StatusCode;
use itoa::Buffer;
use std::alloc::{AllocError, Global};
use sts_fields::Moment;

// More bytes than the longest head takes.
const HEAD_ROOM: usize = 200;

/// The bytes of the whole reply that tells what came of a message (`docs/DESK.md`, "Replies"), or
/// want of memory. It has the date of the moment, if the clock gave one. Where the conversation
/// ends after it the reply says so: that is where it is to close, and always after a message that
/// is refused.
pub fn reply_bytes(
    alloc: Global,
    dated: Option<Moment>,
    outcome: &Outcome,
    closes: bool,
) -> Result<Vec<u8>, AllocError>
    ensures { IfOk result (λ text. text.items ≡ reply_bytes_of dated outcome.now closes) }
{
    let head = ReplyHead::of(dated, outcome, closes);
    if let Some(sale) = sale_told(outcome) {
        return reply_text(alloc, head, &sale_text(sale));
    }
    let body = body_of(alloc, outcome)?;
    reply_text(alloc, head, &body)
}

/// The same for a message of this method: to HEAD the reply has no body, and its head tells the
/// length of the one that GET gets.
pub fn reply_to(
    alloc: Global,
    method: Method,
    dated: Option<Moment>,
    outcome: &Outcome,
    closes: bool,
) -> Result<Vec<u8>, AllocError>
    ensures { IfOk result (λ text. text.items ≡ reply_to method dated outcome.now closes) }
{
    match method {
        Method::Get | Method::Post | Method::Delete => {
            reply_bytes(alloc, dated, outcome, closes)
        }
        Method::Head => bodiless_reply(alloc, dated, outcome, closes),
    }
}

// The head of that reply alone.
#[cold]
#[inline(never)]
fn bodiless_reply(
    alloc: Global,
    dated: Option<Moment>,
    outcome: &Outcome,
    closes: bool,
) -> Result<Vec<u8>, AllocError>
    ensures { IfOk result (λ text. text.items
        ≡ head_text (head_of dated outcome.now closes) (length (body_of outcome.now))) }
{
    let head = ReplyHead::of(dated, outcome, closes);
    let body = body_of(alloc, outcome)?;
    head_and(alloc, head, body.len(), &[])
}

// A whole reply with this head and body.
#[inline(always)]
#[tactic(auto, unfolding(crate::specs::reply::Text::reply_text))]
fn reply_text(alloc: Global, head: ReplyHead, body: &[u8]) -> Result<Vec<u8>, AllocError>
    requires { IsStatusCode head.status }
    ensures { IfOk result (λ text. text.items ≡ reply_text head body.now) }
{
    head_and(alloc, head, body.len(), body)
}

// This head, which tells the length of a body, and what is sent of that.
#[inline(always)]
fn head_and(alloc: Global, head: ReplyHead, len: usize, sent: &[u8]) -> Result<Vec<u8>, AllocError>
    requires { IsStatusCode head.status }
    ensures { IfOk result (λ text. text.items ≡ head_text head len ++ sent.now) }
{
    let mut text = Vec::with_capacity(alloc, HEAD_ROOM + sent.len())?;
    put_status(alloc, &mut text, head.status)?;
    put_content(&mut text, head.form, len)?;
    put_date(&mut text, head.dated)?;
    put_allowed(&mut text, head.allowed)?;
    put_closing(&mut text, head.closes)?;
    text.extend_from_slice(b"\r\n")?;
    text.extend_from_slice(sent)?;
    Ok(text)
}

// Adds the line of a status. That of 200, which most replies have, is written out.
fn put_status(alloc: Global, text: &mut Vec<u8>, status: u16) -> Result<(), AllocError>
    requires { IsStatusCode status }
    ensures { OnOk result (text.new.items ≡ text.old.items ++ status_line status) }
{
    if status == 200 {
        text.extend_from_slice(b"HTTP/1.1 200 OK\r\n")?;
        Ok(())
    } else {
        put_any_status(alloc, text, status)
    }
}

// Adds the line of any status.
#[cold]
#[inline(never)]
fn put_any_status(alloc: Global, text: &mut Vec<u8>, status: u16) -> Result<(), AllocError>
    requires { IsStatusCode status }
    ensures { OnOk result (text.new.items ≡ text.old.items ++ status_line status) }
{
    let status = StatusCode::from_u16(status).unwrap();
    let shown = format!(in alloc; "{status}")?;
    text.extend_from_slice(b"HTTP/1.1 ")?;
    text.extend_from_slice(shown.as_bytes())?;
    text.extend_from_slice(b"\r\n")
}

// Adds the fields that tell of a body: its media type and its length.
#[inline(always)]
fn put_content(text: &mut Vec<u8>, form: Form, len: usize) -> Result<(), AllocError>
    ensures { OnOk result (text.new.items ≡ text.old.items
        ++ field_line (codes "Content-Type") (media_type form)
        ++ field_line (codes "Content-Length") (decimal len)) }
{
    let mut digits = Buffer::new();
    text.extend_from_slice(form.content_front().as_bytes())?;
    text.extend_from_slice(digits.format(len).as_bytes())?;
    text.extend_from_slice(b"\r\n")?;
    Ok(())
}

// Adds the date, where the clock gave a moment.
#[inline(always)]
fn put_date(text: &mut Vec<u8>, dated: Option<Moment>) -> Result<(), AllocError>
    ensures { OnOk result (text.new.items ≡ text.old.items ++ date_line dated) }
{
    match dated {
        None => Ok(()),
        Some(moment) => put_date_at(text, moment),
    }
}

// Adds the date of a moment.
fn put_date_at(text: &mut Vec<u8>, moment: Moment) -> Result<(), AllocError>
    ensures { OnOk result (text.new.items ≡ text.old.items ++ date_line (Some moment)) }
{
    text.extend_from_slice(b"Date: ")?;
    text.extend_from_slice(&http_date(moment))?;
    text.extend_from_slice(b"\r\n")
}

// Adds the line of a field.
fn put_field(text: &mut Vec<u8>, name: &str, value: &str) -> Result<(), AllocError>
    ensures { OnOk result (text.new.items ≡ text.old.items ++ field_line name.now value.now) }
{
    text.extend_from_slice(name.as_bytes())?;
    text.extend_from_slice(b": ")?;
    text.extend_from_slice(value.as_bytes())?;
    text.extend_from_slice(b"\r\n")
}

// Adds the methods that are allowed, where another one was used.
fn put_allowed(text: &mut Vec<u8>, allowed: Option<Method>) -> Result<(), AllocError>
    ensures { OnOk result (text.new.items ≡ text.old.items ++ allow_line allowed) }
{
    match allowed {
        None => Ok(()),
        Some(Method::Get | Method::Head) => put_field(text, "Allow", "GET, HEAD"),
        Some(Method::Post) => put_field(text, "Allow", "POST"),
        Some(Method::Delete) => put_field(text, "Allow", "DELETE"),
    }
}

// Adds that the conversation ends, where it does.
fn put_closing(text: &mut Vec<u8>, closes: bool) -> Result<(), AllocError>
    ensures { OnOk result (text.new.items ≡ text.old.items ++ connection_line closes) }
{
    if closes {
        put_field(text, "Connection", "close")
    } else {
        Ok(())
    }
}
