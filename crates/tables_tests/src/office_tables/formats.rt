//! Tables of older formats that have sales, or none.
use crate::office_tables::made::{batch, count, file};
use book_tables::format::number::format_number;
use book_tables::format::presence::format_here;
use book_tables::format::upgrade::bring;
use book_tables::reading::pages::MeterRow;
use book_tables::reading::sale_lists::sales_after;
use book_tables::{PRESENT_FORMAT, TableError, all_records};
use sqlite::{Connection, Error, ErrorCode, MemStore};
use std::alloc::Global;
use std::test::Fail;

// An office of format 1: three meters, of which one has no sale, and two shifts.
const FIRST: &str = "INSERT INTO about VALUES (1, 1); \
    INSERT INTO tariffs VALUES ('home'), ('shop'); \
    INSERT INTO tariff_steps VALUES ('home', 0, 500, 10), ('home', 1, NULL, 20), \
    ('shop', 0, NULL, 100); \
    INSERT INTO meters VALUES ('12345678903', 2014, 'home', '0123456789abcdef'), \
    ('10000000009', 2014, 'shop', '0123456789abcdef'), \
    ('79927398713', 1993, 'home', '0123456789abcdef'); \
    INSERT INTO shifts VALUES (1, 'ann', 1388534400, 1388620800), (2, 'bob', 1391212800, NULL); \
    INSERT INTO sales VALUES \
    (1, 1388534520, 252, 1, 'ann', 'r-1', '12345678903', 2014, 2, 5, 1, 10, 10, \
    '00072057602627981690'), \
    (2, 1388534580, 252, 1, 'ann', 'r-2', '12345678903', 2014, 3, 15, 7, 70, 100, \
    '00144115200960832043'), \
    (3, 1388534640, 252, 1, 'ann', 'r-3', '10000000009', 2014, 4, 0, 5, 50, 50, \
    '00216172799293731483'), \
    (4, 1391212800, 253, 2, 'bob', 'r-1', '12345678903', 2014, 44640, 1, 3, 30, 30, \
    '00216172799293731483')";

const SECOND: &str = "UPDATE about SET format = 2; \
    INSERT INTO last_ids VALUES ('12345678903', 2014, 44640), ('10000000009', 2014, 4); \
    INSERT INTO month_tenths VALUES ('12345678903', 252, 8), ('10000000009', 252, 5), \
    ('12345678903', 253, 3); \
    INSERT INTO shift_totals VALUES (1, 3, 13, 130), (2, 1, 3, 30)";

const METERS: &str = "SELECT meter, base, tariff, secret FROM meters";

// Brings the tables of a format to the present one, with the meters and the sales that they have,
// and commits it.
fn brought(alloc: Global, conn: &mut Connection<MemStore>, from: u32) -> Result<(), TableError> {
    if !conn.is_autocommit() || from >= PRESENT_FORMAT {
        return Err(TableError::Database(Error::SqliteFailure(ErrorCode::TransactionState)));
    }
    let meters: Vec<MeterRow> = all_records(alloc, conn, METERS, &[])?;
    let sales = sales_after(alloc, conn, 0, 1000)?;
    let mut tx = conn.transaction();
    bring(alloc, &mut tx, from, &meters, &sales)?;
    tx.commit()?;
    Ok(())
}

const THIRD: &str = "UPDATE about SET format = 3; \
    INSERT INTO meter_bases VALUES ('12345678903', 2014), ('10000000009', 2014), \
    ('79927398713', 1993)";

// A file of the office's tables in format 1, 2 or 3.
fn office(alloc: Global, format: u32) -> Result<Connection<MemStore>, Error> {
    let tables = match format {
        1 => 6,
        2 => 9,
        _ => 10,
    };
    let mut conn = file(alloc, tables)?;
    batch(&mut conn, FIRST)?;
    if format > 1 {
        batch(&mut conn, SECOND)?;
    }
    if format > 2 {
        batch(&mut conn, THIRD)?;
    }
    Ok(conn)
}

#[test]
fn a_file_with_no_sales_has_no_totals(rt: HostRuntime) -> Result<(), Fail> {
    let mut conn = file(rt.alloc(), 6)?;
    batch(&mut conn, "INSERT INTO about VALUES (1, 1)")?;
    brought(rt.alloc(), &mut conn, 1)?;
    assert_eq!(rt; format_here(rt.alloc(), conn.schema())?, Some(4));
    assert_eq!(rt; format_number(rt.alloc(), &mut conn)?, Some(4));
    for sql in [
        "SELECT count(*) FROM last_ids",
        "SELECT count(*) FROM month_tenths",
        "SELECT count(*) FROM shift_totals",
        "SELECT count(*) FROM meter_bases",
    ] {
        assert_eq!(rt; count(&mut conn, sql)?, 0, "{sql}");
    }
    Ok(())
}

#[test]
fn an_older_office_is_brought_up(rt: HostRuntime) -> Result<(), Fail> {
    for format in [1, 2, 3] {
        let mut conn = office(rt.alloc(), format)?;
        brought(rt.alloc(), &mut conn, format)?;
        assert_eq!(rt; format_here(rt.alloc(), conn.schema())?, Some(4));
        assert_eq!(rt; format_number(rt.alloc(), &mut conn)?, Some(4));
        assert_eq!(rt; count(&mut conn, "SELECT count(*) FROM meter_bases")?, 3);
        assert_eq!(rt; count(&mut conn, "SELECT count(*) FROM shift_totals")?, 2);
    }
    Ok(())
}
