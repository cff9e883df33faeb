//! The laws of what a command sends to a desk, and of what it understands of the reply.
ghost use Rattle.std.specs.Prelude.{◌≡◌, false, IfSome, Some};
ghost use Rattle.desk_messages.specs.reply.HttpDate.{moment_given};
ghost use Rattle.desk_messages.specs.reply.Text.{reply_bytes_of};
ghost use Rattle.law_witnesses.specs.Sold.{told_sold};

use crate::routes::{METERS, SOLD};
use asks::Grants;
use book_states::{Found, ListedMeter};
use desk_client::{Granted, PageKind, Reading, Told, page_in, page_law, reply_in, told_law};
use desk_messages::{Form, Outcome, found_json, moment_given, reply_bytes};
use office_lines::values::FIRST_DAY;
use office_rules::{Answer, Sale};
use std::alloc::Global;
use std::test::Fail;

// The reply of a desk that sold this, and whose clock gave this second.
fn reply_of(alloc: Global, second: i64, sale: &Sale) -> Option<Vec<u8>>
    ensures { IfSome result (λ text. text.items
        ≡ reply_bytes_of (moment_given (Some second)) (told_sold sale.now) false) }
{
    let outcome = Outcome::Replied(Form::Json, Ok(Answer::Sold(*sale)));
    match reply_bytes(alloc, moment_given(second), &outcome, false) {
        Ok(text) => Some(text),
        Err(_) => None,
    }
}

// The sale that a reply tells, and the one that the reply of a desk tells which sold it at this
// second of its clock. The two may have different dates.
fn sale_again(alloc: Global, second: i64, reply: &[u8]) -> Option<(Sale, Sale)>
    ensures { IfSome result (λ both. both.0 ≡ both.1) }
{
    told_law();
    let Reading::Whole(Told::Granted(Granted::Sale(sale))) = reply_in(reply, Grants::Sale) else {
        return None;
    };
    let Some(text) = reply_of(alloc, second, &sale) else {
        return None;
    };
    match reply_in(&text, Grants::Sale) {
        Reading::Whole(Told::Granted(Granted::Sale(again))) => Some((sale, again)),
        _ => None,
    }
}

#[test]
fn a_reply_tells_one_sale(rt: HostRuntime) -> Result<(), Fail> {
    let (sale, again) = sale_again(rt.alloc(), FIRST_DAY, SOLD).ok_or("no sale")?;
    assert_eq!(rt; sale.number, 1);
    assert_eq!(rt; again, sale);
    Ok(())
}

// The meters of a page, and those of the page that a desk writes of them.
fn page_again(alloc: Global, page: &[u8]) -> Option<(Vec<ListedMeter>, Vec<ListedMeter>)>
    ensures { IfSome result (λ both. both.0.items ≡ both.1.items) }
{
    page_law();
    let Ok(Some(first)) = page_in(alloc, PageKind::Meters, page) else {
        return None;
    };
    let Ok(text) = found_json(alloc, &first) else {
        return None;
    };
    let Ok(Some(again)) = page_in(alloc, PageKind::Meters, &text) else {
        return None;
    };
    match (first, again) {
        (Found::Meters(first), Found::Meters(again)) => Some((first, again)),
        _ => None,
    }
}

#[test]
fn a_body_tells_one_page(rt: HostRuntime) -> Result<(), Fail> {
    let (first, again) = page_again(rt.alloc(), METERS).ok_or("no page")?;
    assert_eq!(rt; first.len(), 2);
    assert_eq!(rt; again, first);
    Ok(())
}
