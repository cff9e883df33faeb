//! A list that a running desk has, printed page by page.

ghost use Rattle.std.specs.Prelude.{◌≡◌, IfOk, MatchOption, MatchResult};
ghost use Rattle.asks.specs.declared.ask.Ask.TheVariants.{Look};
ghost use Rattle.desk_client.specs.Answers.{IsReplyTo};
ghost use Rattle.desk_client.specs.Page.{HasTokens, IsToldPage, page_as_read};
ghost use Rattle.desk_client.specs.Sent.{ask_text, wanted_by};
ghost use Rattle.desk_client.specs.declared.told.Told.{Told as WhatIsTold};
ghost use Rattle.desk_commands.specs.ListedAtDesk.{IsListedAtDesk, IsNoPageText, IsPageAsked};
ghost use Rattle.desk_commands.specs.ListedAtDesk.{IsPageIn};
ghost use Rattle.desk_commands.specs.ListedAtDesk.{IsPagePrinted, page_fault_line, page_kind};
ghost use Rattle.desk_commands.specs.Exchanged.{calls_of};
ghost use Rattle.desk_commands.specs.PageOrder.{ComesAfter};
ghost use Rattle.vend_ports.specs.print.Told.{Takes, outputs};

use crate::exchange::exchange_on;
use crate::page_order::comes_after;
use crate::print::pages::put_page;
use asks::{Ask, Grants, Lookup};
use book_states::Found;
use command_line::Address;
use desk_client::{
    Granted, PageKind, Told, answer_in, has_tokens, message, page_in, page_law, wanted_by,
};
use office_rules::Refusal;
use std::alloc::{AllocError, Global};
use std::io::{Read, Write};
use vend_ports::{CommandEnd, Loopback, Watched, put_line, put_no_moment, put_refusal};

/// Why a page of a list is not printed.
#[derive(Clone, Copy, Debug, PartialEq, Eq)]
pub enum PageFault {
    /// There is no room for the message that asks for it.
    NoMessage,
    /// There is no connection, the message was cut off, or there was no room for what came.
    Unsent,
    /// The office refuses it.
    Refused(Refusal),
    /// The desk's clock is outside the moments of an office.
    NoMoment,
    /// What came is no page of the list.
    OutOfForm,
    /// There is no room for the page, or for its text.
    Memory,
}

/// Prints the pages of a list that a desk has, or tells why it stops. Where the output fails it
/// goes no further.
pub(crate) fn list<L: Loopback, O: Write, E: Write>(
    alloc: Global,
    desk: Address,
    list: Lookup,
    json: bool,
    loopback: L,
    out: &mut Watched<'_, O>,
    err: &mut Watched<'_, E>,
) -> CommandEnd
    ensures { IsListedAtDesk (calls_of L.Loopback L.Stream.remaining L.Stream.contents loopback)
        desk list json (outputs out.old out.new err.old err.new) result }
{
    let mut stream = match loopback.call(desk) {
        Ok(stream) => stream,
        Err(_) => {
            put_line(&[b"net"], err);
            return CommandEnd::Refused;
        }
    };
    let mut next = list;
    // No office has so many pages.
    for page in 0..u64::MAX {
        match print_page(alloc, &mut stream, next, json, page == 0, out) {
            Ok(Some(behind)) => next = behind,
            Ok(None) => {
                L::end(stream);
                return CommandEnd::Done;
            }
            Err(fault) => {
                L::end(stream);
                put_page_fault(fault, err);
                return CommandEnd::Refused;
            }
        }
    }
    L::end(stream);
    CommandEnd::Done
}

// Prints the first page of a list, and answers the list behind it: none where the page is not full,
// and none where the output did not take it.
fn print_page<S: Read + Write, O: Write>(
    alloc: Global,
    stream: &mut S,
    list: Lookup,
    json: bool,
    is_first: bool,
    out: &mut Watched<'_, O>,
) -> Result<Option<Lookup>, PageFault>
    ensures { IsPagePrinted S.remaining S.contents list json is_first stream.old stream.new
        out.old out.new result }
{
    let page = match ask_page(alloc, stream, list) {
        Ok(page) => page,
        Err(fault) => return Err(fault),
    };
    match put_page(alloc, &page, json, is_first, out) {
        Ok(behind) => Ok(behind),
        Err(_) => Err(PageFault::Memory),
    }
}

// Asks for the first page of a list.
fn ask_page<S: Read + Write>(
    alloc: Global,
    stream: &mut S,
    list: Lookup,
) -> Result<Found, PageFault>
    ensures { IsPageAsked S.remaining S.contents list stream.old stream.new result }
{
    let Ok(message) = page_message(alloc, list) else {
        return Err(PageFault::NoMessage);
    };
    match exchange_on(alloc, stream, &message, page_grants(list)) {
        Some(came) => page_of(alloc, &list, &came),
        None => Err(PageFault::Unsent),
    }
}

// The message that asks for the first page of a list.
fn page_message(alloc: Global, list: Lookup) -> Result<Vec<u8>, AllocError>
    ensures { IfOk result (λ text. text.items ≡ ask_text (Look list)) }
{
    message(alloc, &Ask::Look(list))
}

// What is told where it is granted.
fn page_grants(list: Lookup) -> Grants
    ensures { result ≡ wanted_by (Look list) }
{
    wanted_by(&Ask::Look(list))
}

// What the reply to it tells.
fn told_of<'b>(list: Lookup, came: &'b [u8]) -> Option<Told<'b>>
    ensures { MatchOption result ((told : WhatIsTold) → ¬ IsReplyTo (Look list) came.now told)
        (IsReplyTo (Look list) came.now) }
{
    answer_in(&Ask::Look(list), came)
}

// The page of a list that a reply tells.
fn page_of(alloc: Global, list: &Lookup, came: &[u8]) -> Result<Found, PageFault>
    ensures { IsPageIn list.now came.now result }
{
    match told_of(*list, came) {
        Some(Told::Granted(granted)) => match granted {
            Granted::Page(body) => page_told(alloc, list, body),
            // No list was asked for.
            _ => Err(PageFault::OutOfForm),
        },
        Some(Told::Refused(refusal)) => Err(PageFault::Refused(refusal)),
        Some(Told::NoMoment) => Err(PageFault::NoMoment),
        None => Err(PageFault::OutOfForm),
    }
}

// The page of a list that a text tells.
fn page_told(alloc: Global, list: &Lookup, text: &[u8]) -> Result<Found, PageFault>
    ensures { MatchResult result
        (λ page. IsToldPage (page_kind list.now) page × ComesAfter list.now page
        × HasTokens page × (text.now ≡ page_as_read page))
        (IsNoPageText list.now text.now) }
{
    page_law();
    let page = match page_in(alloc, page_kind(*list), text) {
        Ok(Some(page)) => page,
        Ok(None) => return Err(PageFault::OutOfForm),
        Err(_) => return Err(PageFault::Memory),
    };
    if !comes_after(list, &page) {
        return Err(PageFault::OutOfForm);
    }
    if !has_tokens(&page) {
        return Err(PageFault::OutOfForm);
    }
    Ok(page)
}

// What the pages of a list have.
fn page_kind(list: Lookup) -> PageKind
    ensures { result ≡ page_kind list }
{
    match list {
        Lookup::Tariffs(_) => PageKind::Tariffs,
        Lookup::Meters(_) => PageKind::Meters,
        Lookup::Shifts(_) => PageKind::Shifts,
        // Any other look-up has no pages.
        _ => PageKind::Sales,
    }
}

// Tells why a page is not printed.
fn put_page_fault<E: Write>(fault: PageFault, err: &mut Watched<'_, E>)
    ensures { Takes err.old err.new (page_fault_line fault) }
{
    match fault {
        PageFault::NoMessage => put_refusal(Refusal::Memory, err),
        PageFault::Unsent => put_line(&[b"net"], err),
        PageFault::Refused(refusal) => put_refusal(refusal, err),
        PageFault::NoMoment => put_no_moment(err),
        PageFault::OutOfForm => put_line(&[b"net"], err),
        PageFault::Memory => put_refusal(Refusal::Memory, err),
    }
}
