//! Files of older formats: each is opened to the office that it stands for, in one of the present
//! format.

pub(crate) mod offices;
pub(crate) mod tables;

use crate::older::offices::{Older, older_offices};
use crate::pages::export_in_pages;
use crate::shown::{ALL_TABLES, all_shown, shown};
use crate::stops::scripts::{Script, script_of};
use books::{Books, OpenFault};
use office_lines::plain::ask_all;
use office_testing::both::{Both, agree, is_same, opened_again, serve_all};
use sqlite::{Connection, Error, MemStore};
use std::alloc::Global;
use std::process::Abort;
use std::test::Fail;
use sts_token::Plain;
use vend_core::Lists;

fn file(alloc: Global, parts: &[&str]) -> Result<Connection<MemStore>, Error> {
    let mut conn = Connection::open_in_memory(alloc)?;
    for sql in parts {
        conn.execute_batch(sql)?;
    }
    Ok(conn)
}

fn lists_of(alloc: Global, asked: &str) -> Result<Lists<Plain>, Fail> {
    let mut lists = Lists::new(alloc, Plain);
    ask_all(alloc, &mut lists, asked)?;
    Ok(lists)
}

fn books_of(alloc: Global, conn: Connection<MemStore>) -> Result<Books<MemStore, Plain>, Fail> {
    opened_again(alloc, conn, Plain)
}

// Asks both, which have to give the same replies, and the ones that are wanted.
fn ask_script(
    rt: &(impl Abort + AllocGlobal),
    both: &mut Both<MemStore, Plain>,
    script: &Script,
) -> Result<(), Fail> {
    let replies = serve_all(&mut both.books, &script.sent)?;
    let right = script.answered(rt.alloc(), &replies)?;
    assert_eq!(rt; right, Some(script.sent.len()), "{replies:?}");
    for (reply, at) in replies.iter().zip(&script.sent) {
        let expected = both.lists.serve(at);
        assert!(rt; is_same(reply, &expected), "{reply:?}, not {expected:?}");
    }
    Ok(())
}

// The sales as a line of an export each.
const EXPORTED: &str = "SELECT number || ',' || moment || ',' || shift || ',' || operator || ',' \
    || ref || ',' || meter || ',' || base || ',' || tid || ',' || tenths || ',' || price || ',' \
    || tender || ',' || (tender - price) || ',' || digits FROM sales ORDER BY number";

// The rows that an opening leaves; and the office, beside the one that was asked the same.
fn has_same_office(rt: &(impl Abort + AllocGlobal), older: &Older) -> Result<(), Fail> {
    let alloc = rt.alloc();
    let mut conn = file(alloc, older.parts)?;
    let before = shown(alloc, &mut conn, EXPORTED)?;
    assert!(rt;
        !before.is_empty() && older.export.ends_with(before.as_str()),
        "{before}"
    );
    let mut conn = books_of(alloc, conn)?.into_connection();
    let tables = all_shown(alloc, &mut conn)?;
    assert!(rt;
        tables.as_str().strip_prefix(ALL_TABLES) == Some(older.opened),
        "{tables}"
    );
    let mut both = Both {
        books: books_of(alloc, conn)?,
        lists: lists_of(alloc, older.asked)?,
    };
    agree(&mut both)?;
    let export = export_in_pages(alloc, &mut both)?;
    assert!(rt; export.as_slice() == older.export.as_bytes(), "{export:?}");
    ask_script(rt, &mut both, &script_of(alloc, older.later)?)?;
    agree(&mut both)
}

#[test]
fn an_older_file_is_opened_to_its_office(rt: HostRuntime) -> Result<(), Fail> {
    for older in older_offices() {
        has_same_office(&rt, older)?;
    }
    Ok(())
}

// What makes a file of a format no office's: a false row in each of its tables, or one that its
// other tables do not bear out.
static FALSE_ROWS: [(usize, &str); 13] = [
    (1, "UPDATE about SET format = 2"),
    (1, "INSERT INTO tariffs VALUES ('none')"),
    (1, "UPDATE tariff_steps SET price = 0"),
    (
        1,
        "UPDATE meters SET base = 2015 WHERE meter = '10000000009'",
    ),
    (1, "UPDATE shifts SET opened = -1"),
    (1, "UPDATE sales SET price = 11"),
    (2, "UPDATE last_ids SET tid = 3"),
    (2, "DELETE FROM month_tenths"),
    (2, "UPDATE shift_totals SET cash = 77"),
    (3, "UPDATE last_ids SET tid = 5732414 WHERE base = 2014"),
    (3, "UPDATE month_tenths SET tenths = 19"),
    (3, "INSERT INTO shift_totals VALUES (2, 0, 0, 0)"),
    (3, "DELETE FROM meter_bases WHERE base = 1993"),
];

fn false_rows() -> &'static [(usize, &'static str)] {
    &FALSE_ROWS
}

fn refused(
    alloc: Global,
    conn: Connection<MemStore>,
) -> Result<(OpenFault, Connection<MemStore>), Fail> {
    if !conn.is_autocommit() {
        return Err("a transaction is open".into());
    }
    match Books::open_from(alloc, conn, Plain) {
        Ok(_) => Err("it was opened".into()),
        Err(left) => Ok(left),
    }
}

// Such a file is refused, and stays as it was.
fn stays(rt: &(impl Abort + AllocGlobal), older: &Older, sql: &str) -> Result<(), Fail> {
    let alloc = rt.alloc();
    let mut conn = file(alloc, older.parts)?;
    conn.execute_batch(sql)?;
    let before = all_shown(alloc, &mut conn)?;
    let (fault, mut conn) = refused(alloc, conn)?;
    assert_eq!(rt; fault, OpenFault::NotAnOffice, "{sql}");
    let after = all_shown(alloc, &mut conn)?;
    assert_eq!(rt; after.as_str(), before.as_str(), "{sql}");
    Ok(())
}

#[test]
fn an_older_file_with_a_false_row_stays_as_it_was(rt: HostRuntime) -> Result<(), Fail> {
    for (format, sql) in false_rows() {
        let older = older_offices()
            .get(format.saturating_sub(1))
            .ok_or("no format")?;
        stays(&rt, older, sql)?;
    }
    Ok(())
}
