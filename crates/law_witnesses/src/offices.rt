//! The laws of books, of the look-ups in them, and of an audit's rows.
ghost use Rattle.std.specs.Prelude.{◌≡◌, Contains, IfErr, IfSome, Ok};
ghost use Rattle.book_states.specs.declared.lookup.Found.{Found};
ghost use Rattle.books.specs.Keeps.{seen};
ghost use Rattle.office_rules.specs.declared.decision.answer.Answer.{Answer};
ghost use Rattle.law_witnesses.specs.Offices.{HasServed};

use audit::office_rows;
use audit_lists::{
    OfficeFault, honest_law, meter_places, office_law, test_office, test_reached, test_tokens,
    tokens_law,
};
use audit_rows::{Finding, read_office_rows};
use book_facts::quote_law;
use book_states::{Found, Lookup, Quote};
use book_tables::PRESENT_FORMAT;
use books::{Books, headline_law, last_sale_law};
use office_lines::lines::stamped_of;
use office_lines::values::{FIRST_DAY, METER, meter_no, moment, order};
use office_rules::{Answer, MeterNo, Moment, Order, Refusal, Reply, Request, Sale, Stamped};
use sqlite::MemStore;
use std::alloc::Global;
use std::process::Abort;
use std::test::Fail;
use sts_token::Plain;

// Books in memory that served these requests from the empty office on, with the replies, and that
// go on at this moment.
pub(crate) fn served(
    alloc: Global,
    ats: &[Stamped],
    moment: Moment,
) -> Option<(Books<MemStore, Plain>, Vec<Reply>)>
    ensures { IfSome result (λ both. HasServed ats.now both.1.items (seen both.0)) }
{
    let Ok(mut books) = Books::in_memory(alloc, Plain) else {
        return None;
    };
    let Ok(replies) = books.serve_all(ats) else {
        return None;
    };
    match books.look_up(moment, &Lookup::Health) {
        Ok(_) => Some((books, replies)),
        Err(_) => None,
    }
}

// The first sale that was sold among these replies, and the first that was reprinted.
fn sold_in(replies: &[Reply]) -> Option<Sale>
    ensures { IfSome result (λ sale. Contains replies.now (Ok (Answer.Sold sale))) }
{
    for reply in replies {
        if let Ok(Answer::Sold(sale)) = reply {
            return Some(*sale);
        }
    }
    None
}

fn reprinted_in(replies: &[Reply]) -> Option<Sale>
    ensures { IfSome result (λ sale. Contains replies.now (Ok (Answer.Reprinted sale))) }
{
    for reply in replies {
        if let Ok(Answer::Reprinted(sale)) = reply {
            return Some(*sale);
        }
    }
    None
}

// A sale and its reprint.
fn sold_and_reprinted(alloc: Global, ats: &[Stamped], moment: Moment) -> Option<(Sale, Sale)>
    ensures { IfSome result (λ both. both.1.digits ≡ both.0.digits) }
{
    headline_law::<MemStore, MemStore, Plain>();
    let Some((_books, replies)) = served(alloc, ats, moment) else {
        return None;
    };
    let Some(first) = sold_in(&replies) else {
        return None;
    };
    let Some(again) = reprinted_in(&replies) else {
        return None;
    };
    if again.number == first.number {
        Some((first, again))
    } else {
        None
    }
}

// The sale that was found, and the quote.
pub(crate) fn sale_of(found: &Found) -> Option<Sale>
    ensures { IfSome result (λ sale. found.now ≡ Found.Sale sale) }
{
    match found {
        Found::Sale(sale) => Some(*sale),
        _ => None,
    }
}

pub(crate) fn quote_of(found: &Found) -> Option<Quote>
    ensures { IfSome result (λ quote. found.now ≡ Found.Quote quote) }
{
    match found {
        Found::Quote(quote) => Some(*quote),
        _ => None,
    }
}

// The sale that was sold.
pub(crate) fn sold_by(reply: &Reply) -> Option<Sale>
    ensures { IfSome result (λ sale. reply.now ≡ Ok (Answer.Sold sale)) }
{
    match reply {
        Ok(Answer::Sold(sale)) => Some(*sale),
        _ => None,
    }
}

// The last sale to a meter, as it is looked up.
fn last_sale_to(alloc: Global, ats: &[Stamped], moment: Moment, meter: &MeterNo) -> Option<Sale>
    ensures { IfSome result (λ sale. sale.meter ≡ meter.now) }
{
    last_sale_law();
    let Some((mut books, _replies)) = served(alloc, ats, moment) else {
        return None;
    };
    let Ok(found) = books.look_up(moment, &Lookup::LastSale(*meter)) else {
        return None;
    };
    match sale_of(&found) {
        Some(sale) => Some(sale),
        None => None,
    }
}

// A quote, and the sale that is made by the same tender at the same moment. The reference is new.
fn quoted_and_sold(
    alloc: Global,
    ats: &[Stamped],
    moment: Moment,
    order: &Order,
) -> Option<(Quote, Sale)>
    ensures tenths { IfSome result (λ both. both.1.tenths ≡ both.0.tenths) }
    ensures price { IfSome result (λ both. both.1.price ≡ both.0.price) }
{
    quote_law();
    let Some((mut books, _replies)) = served(alloc, ats, moment) else {
        return None;
    };
    let by_ref = Lookup::SaleOfRef(order.operator, order.order_ref);
    let Err(Refusal::NoSale) = books.look_up(moment, &by_ref) else {
        return None;
    };
    let Ok(found) = books.look_up(moment, &Lookup::Quote(order.meter, order.tender)) else {
        return None;
    };
    let Some(quote) = quote_of(&found) else {
        return None;
    };
    match sold_by(&books.ask(moment, Request::Sell(*order))) {
        Some(sale) => Some((quote, sale)),
        None => None,
    }
}

// What an audit finds of the rows of books by themselves: that they are an office's.
fn test_of_rows(alloc: Global, ats: &[Stamped], moment: Moment) -> Option<Result<(), OfficeFault>>
    ensures { IfSome result (λ tested. IfErr tested (λ fault. fault ≡ OfficeFault.Memory)) }
{
    office_law();
    let Some((books, _replies)) = served(alloc, ats, moment) else {
        return None;
    };
    let mut conn = books.into_connection();
    match read_office_rows(alloc, &mut conn, PRESENT_FORMAT) {
        Ok(rows) => Some(test_office(alloc, PRESENT_FORMAT, &rows)),
        Err(_) => None,
    }
}

// What it finds of the requests that led to them.
fn test_of_requests(
    alloc: Global,
    ats: &[Stamped],
    moment: Moment,
) -> Option<Result<(), OfficeFault>>
    ensures { IfSome result (λ tested. IfErr tested (λ fault. fault ≡ OfficeFault.Memory)) }
{
    honest_law();
    let Some((books, _replies)) = served(alloc, ats, moment) else {
        return None;
    };
    let mut conn = books.into_connection();
    let _live = conn.schema();
    match office_rows(alloc, &mut conn, PRESENT_FORMAT) {
        Ok(rows) => Some(test_reached(alloc, &rows)),
        Err(_) => None,
    }
}

// And of their tokens, by the transform that wrote them.
fn test_of_tokens(alloc: Global, ats: &[Stamped], moment: Moment) -> Option<Result<(), Finding>>
    ensures { IfSome result (λ tested. tested ≡ Ok tt) }
{
    tokens_law();
    let Some((books, _replies)) = served(alloc, ats, moment) else {
        return None;
    };
    let mut conn = books.into_connection();
    let _live = conn.schema();
    match office_rows(alloc, &mut conn, PRESENT_FORMAT) {
        Ok(rows) => match meter_places(alloc, &rows) {
            Ok(meters) => Some(test_tokens(&Plain, &rows, &meters)),
            Err(_) => None,
        },
        Err(_) => None,
    }
}

// A tariff, a meter, an operator's shift and a sale, and then these requests.
pub(crate) fn day(alloc: Global, more: &[&str]) -> Result<Vec<Stamped>, Fail> {
    let mut ats = Vec::new(alloc);
    for line in DAY {
        ats.push(stamped_of(alloc, 0, line)?)?;
    }
    for line in more {
        ats.push(stamped_of(alloc, 1, line)?)?;
    }
    Ok(ats)
}

static DAY: [&str; 4] = [
    "1388534430 add-tariff flat :100",
    "1388534430 add-meter 12345678903 2014 flat 0000000000000000",
    "1388534430 open-shift ann",
    "1388534430 sell ann A-1 12345678903 10",
];

// The token of that sale.
const DIGITS: &[u8] = b"00072057602627981690";

#[test]
fn a_reprint_is_the_first_token(rt: HostRuntime) -> Result<(), Fail> {
    let ats = day(rt.alloc(), &["1388534431 reprint 1"])?;
    let (first, again) = sold_and_reprinted(rt.alloc(), &ats, moment(FIRST_DAY)?).ok_or(
        "no reprint",
    )?;
    assert_eq!(rt; first.digits.as_slice(), DIGITS);
    assert_eq!(rt; again.digits.as_slice(), DIGITS);
    Ok(())
}

#[test]
fn the_last_sale_to_a_meter(rt: HostRuntime) -> Result<(), Fail> {
    let ats = day(rt.alloc(), &["1388534430 sell ann A-2 12345678903 20"])?;
    let meter = meter_no(METER)?;
    let sale = last_sale_to(rt.alloc(), &ats, moment(FIRST_DAY)?, &meter).ok_or("no last sale")?;
    assert_eq!(rt; sale.number, 2);
    assert_eq!(rt; sale.meter, meter);
    Ok(())
}

#[test]
fn a_quote_is_what_is_sold(rt: HostRuntime) -> Result<(), Fail> {
    let ats = day(rt.alloc(), &[])?;
    let Request::Sell(order) = order(b"A-9", METER, 4_900)? else {
        return Err("no order".into());
    };
    let (quote, sale) = quoted_and_sold(rt.alloc(), &ats, moment(FIRST_DAY)?, &order).ok_or(
        "no quote",
    )?;
    assert_eq!(rt; sale.tenths.tenths(), 490);
    assert_eq!(rt; quote.tenths.tenths(), 490);
    assert_eq!(rt; quote.price, sale.price);
    Ok(())
}

// Each part of an audit of the office of these requests finds nothing.
fn finds_nothing(rt: &(impl Abort + AllocGlobal), ats: &[Stamped]) -> Result<(), Fail> {
    let now = moment(FIRST_DAY)?;
    let rows = test_of_rows(rt.alloc(), ats, now);
    assert!(rt; matches!(rows, Some(Ok(()))));
    let requests = test_of_requests(rt.alloc(), ats, now);
    assert!(rt; matches!(requests, Some(Ok(()))));
    let tokens = test_of_tokens(rt.alloc(), ats, now);
    assert!(rt; matches!(tokens, Some(Ok(()))));
    Ok(())
}

#[test]
fn an_audit_finds_nothing(rt: HostRuntime) -> Result<(), Fail> {
    let ats = day(rt.alloc(), &[])?;
    finds_nothing(&rt, &ats)
}

// Steps were withdrawn, and a meter had another key before its first sale.
#[test]
fn an_audit_finds_nothing_after_mistakes(rt: HostRuntime) -> Result<(), Fail> {
    let more = [
        "1388534430 add-steps flat 2014-02-01 :200",
        "1388534430 withdraw-steps flat 2014-02-01",
        "1388534430 add-meter 10000000009 2014 flat 0000000000000000",
        "1388534430 set-key 10000000009 0123456789abcdef",
        "1388534430 sell ann A-2 10000000009 10",
    ];
    let ats = day(rt.alloc(), &more)?;
    finds_nothing(&rt, &ats)
}
