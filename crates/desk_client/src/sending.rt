//! The messages that a desk is sent.

ghost use Rattle.std.specs.Prelude.{◌≡◌, ◌++◌, IfOk, OnOk};
ghost use Rattle.desk_client.specs.Message.{body_part, front_lines, message_bytes, method_word};
ghost use Rattle.desk_client.specs.Sent.{ask_text, wanted_by};

use asks::{Ask, Grants};
use conversation::Method;
use itoa::Buffer;
use std::alloc::{AllocError, Global};

/// The bytes of the message of an ask. An error is want of memory.
pub fn message(alloc: Global, ask: &Ask<'_>) -> Result<Vec<u8>, AllocError>
    ensures { IfOk result (λ text. text.items ≡ ask_text ask.now) }
{
    let mut target = Vec::new(alloc);
    ask.put_target(&mut target)?;
    let mut body = Vec::new(alloc);
    ask.put_body(&mut body)?;
    whole_message(alloc, ask.method(), &target, &body)
}

/// What the reply to it is to tell, where it is granted.
pub fn wanted_by(ask: &Ask<'_>) -> Grants
    ensures { result ≡ wanted_by ask.now }
{
    ask.kind().endpoint().grants
}

// The bytes of a whole message to a desk, with this method, target and body. One of GET, HEAD or
// DELETE is sent without its body.
fn whole_message(
    alloc: Global,
    method: Method,
    target: &[u8],
    body: &[u8],
) -> Result<Vec<u8>, AllocError>
    ensures { IfOk result (λ text. text.items ≡ message_bytes method target.now body.now) }
{
    let mut text = Vec::new(alloc);
    put_front(&mut text, method, target)?;
    put_body(&mut text, method, body)?;
    Ok(text)
}

// Adds the first line, and that of the host.
#[tactic(auto, unfolding(crate::specs::Message::front_lines))]
fn put_front(text: &mut Vec<u8>, method: Method, target: &[u8]) -> Result<(), AllocError>
    ensures { OnOk result (text.new.items ≡ text.old.items ++ front_lines method target.now) }
{
    text.extend_from_slice(word_of(method).as_bytes())?;
    text.extend_from_slice(b" ")?;
    text.extend_from_slice(target)?;
    text.extend_from_slice(b" HTTP/1.1\r\nHost: desk\r\n")?;
    Ok(())
}

// Adds what stands behind them.
fn put_body(text: &mut Vec<u8>, method: Method, body: &[u8]) -> Result<(), AllocError>
    ensures { OnOk result (text.new.items ≡ text.old.items ++ body_part method body.now) }
{
    match method {
        Method::Get | Method::Head | Method::Delete => text.extend_from_slice(b"\r\n"),
        Method::Post => put_sized(text, body),
    }
}

// Adds the length of a body, an empty line and the body.
#[tactic(auto, unfolding(crate::specs::Message::length_line))]
fn put_sized(text: &mut Vec<u8>, body: &[u8]) -> Result<(), AllocError>
    ensures { OnOk result (text.new.items ≡ text.old.items ++ body_part Method.Post body.now) }
{
    let mut digits = Buffer::new();
    text.extend_from_slice(b"Content-Length: ")?;
    text.extend_from_slice(digits.format(body.len()).as_bytes())?;
    text.extend_from_slice(b"\r\n\r\n")?;
    text.extend_from_slice(body)?;
    Ok(())
}

// The word of a method.
fn word_of(method: Method) -> &'static str
    ensures { result.now ≡ method_word method }
{
    match method {
        Method::Get => "GET",
        Method::Head => "HEAD",
        Method::Post => "POST",
        Method::Delete => "DELETE",
    }
}
