//! The sentence of each fault of a message, of a body and of a request's target.

use asks::AskFault;
use desk::{DeskFault, MessageFault, Method};
use office_rules::RowCause;
use papers::RowFault;
use std::alloc::Global;
use std::fmt::Display;
use std::test::Fail;

fn told() -> &'static str {
    "\
no head of a message
another method than GET, HEAD, POST and DELETE
not exactly one Host field
a Transfer-Encoding field
no length in Content-Length
the body is too long
not the JSON of the ask
row 2: Columns
out of memory
no such target
another method than the route's
the clock is outside the moments of the office
the body is not what the route asks for
"
}

fn add<T: Display>(alloc: Global, text: &mut String, fault: &T) -> Result<(), Fail> {
    let line = format!(in alloc; "{fault}\n")?;
    text.push_str(line.as_str())?;
    Ok(())
}

#[test]
fn each_fault_has_its_sentence(rt: HostRuntime) -> Result<(), Fail> {
    let alloc = rt.alloc();
    let mut text = String::new(alloc);
    add(alloc, &mut text, &MessageFault::Head)?;
    add(alloc, &mut text, &MessageFault::Method)?;
    add(alloc, &mut text, &MessageFault::Host)?;
    add(alloc, &mut text, &MessageFault::Coding)?;
    add(alloc, &mut text, &MessageFault::Length)?;
    add(alloc, &mut text, &MessageFault::Body)?;
    add(alloc, &mut text, &AskFault::OutsideRule)?;
    add(alloc, &mut text, &RowFault::At(2, RowCause::Columns))?;
    add(alloc, &mut text, &AskFault::Memory)?;
    add(alloc, &mut text, &DeskFault::NoRoute)?;
    add(alloc, &mut text, &DeskFault::Method(Method::Get))?;
    add(alloc, &mut text, &DeskFault::Clock)?;
    add(alloc, &mut text, &DeskFault::Body)?;
    assert_eq!(rt; text.as_str(), told());
    Ok(())
}
