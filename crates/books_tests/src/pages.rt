//! Many requests at once, the sales a page at a time, and books whose connection is given back.

use crate::shown::all_shown;
use books::{Books, Lookup, OpenFault};
use office_rules::{Refusal, Request, Sale, Stamped};
use office_testing::both::{Both, agree, ask, in_memory, is_same, office, serve, serve_all, sold};
use office_testing::in_file::change_tables;
use office_testing::older::OLDER;
use office_testing::values::{FIRST_DAY, METER, OTHER_METER, flat, order, stamped};
use papers::{TextFault, sales_csv};
use sqlite::{Connection, MemStore};
use std::alloc::Global;
use std::process::Abort;
use std::test::Fail;
use sts_fields::Base;
use sts_token::Plain;

pub(crate) type Office = Both<MemStore, Plain>;

// So many orders of a tenth, by turns for one of two meters.
fn orders(alloc: Global, many: u32) -> Result<Vec<Stamped>, Fail> {
    let mut orders = Vec::new(alloc);
    for number in 1..=many {
        let text = format!(in alloc; "A-{number}")?;
        let meter = if number % 2 == 0 { METER } else { OTHER_METER };
        let request = order(text.as_bytes(), meter, 10)?;
        orders.push(stamped(FIRST_DAY, (number % 16) as u8, request)?)?;
    }
    Ok(orders)
}

// Serves them all in one call, and compares each reply.
fn serve_orders(rt: &impl Abort, both: &mut Office, orders: &[Stamped]) -> Result<(), Fail> {
    let replies = serve_all(&mut both.books, orders)?;
    assert_eq!(rt; replies.len(), orders.len());
    for (reply, at) in replies.iter().zip(orders) {
        let expected = both.lists.serve(at);
        assert!(rt;
            reply.is_ok() && is_same(reply, &expected),
            "{reply:?}, not {expected:?}"
        );
    }
    Ok(())
}

fn page(both: &mut Office, number: u32, few: bool) -> Result<Vec<Sale>, Refusal> {
    let limit = if few { 1 } else { 1000 };
    both.books.sales_after(number, limit)
}

// A page has these sales of the lists, by their places.
fn has_page(
    rt: &impl Abort,
    both: &mut Office,
    number: u32,
    few: bool,
    end: usize,
) -> Result<(), Fail> {
    let sales = page(both, number, few)?;
    let expected = both.lists.sales().get(number as usize..end);
    assert!(rt; expected == Some(sales.as_slice()), "sales after {number}");
    Ok(())
}

#[test]
fn a_thousand_sales_and_three(rt: HostRuntime) -> Result<(), Fail> {
    let alloc = rt.alloc();
    let mut both = office(alloc, Base::Y2014, flat(alloc, 100)?)?;
    serve_orders(&rt, &mut both, &orders(alloc, 1_003)?)?;
    assert_eq!(rt; both.books.next_number(), 1_004);
    has_page(&rt, &mut both, 0, false, 1_000)?;
    has_page(&rt, &mut both, 1_000, false, 1_003)?;
    has_page(&rt, &mut both, 3, false, 1_003)?;
    has_page(&rt, &mut both, 0, true, 1)?;
    has_page(&rt, &mut both, 1_002, true, 1_003)?;
    assert!(rt; page(&mut both, 1_003, false)?.is_empty());
    assert!(rt; page(&mut both, u32::MAX, true)?.is_empty());
    // Sent again, they are answered with the same sales, and add none.
    serve_orders(&rt, &mut both, &orders(alloc, 20)?)?;
    agree(&mut both)
}

const EXPORT: &[u8] =
    b"number,moment,shift,operator,ref,meter,base,tid,tenths,price,tender,change,token\n\
    1,1388534430,1,ann,A-1,10000000009,2014,2,1,10,10,0,00072057602627981690\n";

fn put_page(
    alloc: Global,
    sales: &[Sale],
    is_first: bool,
    text: &mut Vec<u8>,
) -> Result<(), TextFault> {
    sales_csv(alloc, sales, is_first, text)
}

// All sales a page at a time, up to one that is not full, with the header in front of the first.
pub(crate) fn export_in_pages(alloc: Global, both: &mut Office) -> Result<Vec<u8>, Fail> {
    let mut text = Vec::new(alloc);
    for number in [0, 1_000, 2_000, 3_000] {
        let sales = page(both, number, false)?;
        put_page(alloc, &sales, number == 0, &mut text)?;
        if sales.len() < 1_000 {
            return Ok(text);
        }
    }
    Err("each page was full".into())
}

// The pages are what is written of the sales of the lists at once: a header, and a line for each.
fn has_export(rt: &(impl Abort + AllocGlobal), both: &mut Office, many: usize) -> Result<(), Fail> {
    let mut whole = Vec::new(rt.alloc());
    put_page(rt.alloc(), both.lists.sales(), true, &mut whole)?;
    let pages = export_in_pages(rt.alloc(), both)?;
    assert!(rt; pages.as_slice() == whole.as_slice(), "{many} sales");
    assert!(rt; pages.starts_with(EXPORT), "{many} sales");
    let lines = pages.iter().filter(|byte| **byte == b'\n').count();
    assert_eq!(rt; lines, many.saturating_add(1));
    Ok(())
}

fn reopened(
    alloc: Global,
    conn: Connection<MemStore>,
) -> Result<Books<MemStore, Plain>, OpenFault> {
    if !conn.is_autocommit() {
        return Err(OpenFault::Store);
    }
    match Books::open_from(alloc, conn, Plain) {
        Ok(books) => Ok(books),
        Err((fault, _)) => Err(fault),
    }
}

// The office after its tables were changed by these statements, opened again, and what it exports.
fn taken_back(rt: &(impl Abort + AllocGlobal), both: Office, sql: &str) -> Result<Office, Fail> {
    let Both { books, lists } = both;
    let mut conn = books.into_connection();
    change_tables(&mut conn, sql)?;
    let mut both = Both {
        books: reopened(rt.alloc(), conn)?,
        lists,
    };
    let many = both.lists.sales().len();
    has_export(rt, &mut both, many)?;
    Ok(both)
}

// The third page is empty at first, and then has one sale. It is the same office when it is opened
// again, whatever format its tables were taken back to: an opening fills the totals in three pages
// too.
#[test]
fn an_export_in_three_pages(rt: HostRuntime) -> Result<(), Fail> {
    let alloc = rt.alloc();
    let mut both = office(alloc, Base::Y2014, flat(alloc, 100)?)?;
    let orders = orders(alloc, 2_001)?;
    serve_orders(&rt, &mut both, orders.get(..2_000).ok_or("orders")?)?;
    has_export(&rt, &mut both, 2_000)?;
    serve_orders(&rt, &mut both, orders.get(2_000..).ok_or("an order")?)?;
    has_export(&rt, &mut both, 2_001)?;
    let both = taken_back(&rt, both, "")?;
    let [first, second, third] = OLDER;
    let both = taken_back(&rt, both, first)?;
    let both = taken_back(&rt, both, second)?;
    let mut both = taken_back(&rt, both, third)?;
    let reply = ask(&mut both, FIRST_DAY, Request::Reprint(2_001))?;
    assert!(rt; reply.is_ok(), "{reply:?}");
    agree(&mut both)
}

#[test]
fn no_requests_and_no_sales(rt: HostRuntime) -> Result<(), Fail> {
    let mut both = in_memory(rt.alloc())?;
    serve_orders(&rt, &mut both, &[])?;
    assert_eq!(rt; both.books.next_number(), 1);
    assert!(rt; page(&mut both, 0, true)?.is_empty());
    agree(&mut both)
}

#[test]
fn books_over_the_same_connection(rt: HostRuntime) -> Result<(), Fail> {
    let alloc = rt.alloc();
    let mut both = office(alloc, Base::Y2014, flat(alloc, 100)?)?;
    serve_orders(&rt, &mut both, &orders(alloc, 5)?)?;
    let Both { books, lists } = both;
    let mut conn = books.into_connection();
    let last: i64 = conn
        .query_row("SELECT max(number) FROM sales", &[])?
        .get(0)?;
    assert_eq!(rt; last, 5);
    let books = reopened(alloc, conn)?;
    let mut both = Both { books, lists };
    agree(&mut both)?;
    let sale = sold(&mut both, FIRST_DAY, order(b"B-1", METER, 10)?)?;
    assert_eq!(rt; (sale.number, sale.tid), (6, 4));
    agree(&mut both)
}

// Rows that are no office's, which a sale to the other meter meets.
static SPOILS: [&str; 10] = [
    "UPDATE meters SET secret = 'xyz' WHERE meter = '10000000009'",
    "UPDATE meters SET base = 2015 WHERE meter = '10000000009'",
    "UPDATE tariff_steps SET price = 0",
    "INSERT INTO dated_steps VALUES ('block', 0, 0, NULL, 0)",
    "UPDATE shifts SET opened = -1",
    "INSERT INTO last_ids VALUES ('10000000009', 2014, 16777216)",
    "INSERT INTO month_tenths VALUES ('10000000009', 252, -1)",
    "UPDATE shift_totals SET sales = -7",
    "UPDATE shift_totals SET tenths = -7",
    "UPDATE shift_totals SET cash = -70",
];

fn spoils() -> &'static [&'static str] {
    &SPOILS
}

fn is_stopped_answer<T>(answer: &Result<T, Refusal>) -> bool {
    matches!(answer, Err(Refusal::Stopped))
}

// A sale that meets such a row is answered Store, and leaves nothing. The books stop, until they
// are opened again.
fn stops_at(rt: &(impl Abort + AllocGlobal), sql: &str) -> Result<(), Fail> {
    let alloc = rt.alloc();
    let mut both = office(alloc, Base::Y2014, flat(alloc, 100)?)?;
    let _ = sold(&mut both, FIRST_DAY, order(b"A-1", METER, 10)?)?;
    let mut conn = both.books.into_connection();
    conn.execute_batch(sql)?;
    let before = all_shown(alloc, &mut conn)?;
    let mut books = reopened(alloc, conn)?;
    assert!(rt; !books.is_stopped(), "{sql}");
    let spoiled = stamped(FIRST_DAY, 2, order(b"A-2", OTHER_METER, 10)?)?;
    let store = serve(&mut books, &spoiled);
    assert!(rt; matches!(&store, Err(Refusal::Store)), "{sql}: {store:?}");
    assert!(rt; books.is_stopped(), "{sql}");
    let sound = stamped(FIRST_DAY, 1, order(b"A-1", METER, 10)?)?;
    assert!(rt; is_stopped_answer(&serve(&mut books, &sound)), "{sql}");
    assert!(rt; is_stopped_answer(&books.shift_totals(1)), "{sql}");
    assert!(rt; is_stopped_answer(&books.sales_after(0, 1000)), "{sql}");
    let health = books.look_up(sound.moment, &Lookup::Health);
    assert!(rt; is_stopped_answer(&health), "{sql}");
    let mut conn = books.into_connection();
    assert_eq!(rt;
        all_shown(alloc, &mut conn)?.as_str(),
        before.as_str(),
        "{sql}"
    );
    let mut books = reopened(alloc, conn)?;
    assert!(rt; serve(&mut books, &sound).is_ok(), "{sql}");
    assert_eq!(rt; books.next_number(), 2, "{sql}");
    Ok(())
}

#[test]
fn a_row_that_is_no_offices(rt: HostRuntime) -> Result<(), Fail> {
    for sql in spoils() {
        stops_at(&rt, sql)?;
    }
    Ok(())
}
