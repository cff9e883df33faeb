//! Running totals that are too great, or are no office's otherwise.

use crate::office_tables::made::batch;
use book_tables::reading::totals::{has_sales, tenths_in_month, totals_of_shift};
use book_tables::writing::totals::{add_tenths, add_to_shift};
use book_tables::{TableError, Totals};
use office_rules::MeterNo;
use sqlite::{Connection, Error, ErrorCode, MemStore};
use std::alloc::Global;
use std::test::Fail;

// The tables of the totals, between others.
const TABLES: &str = "CREATE TABLE before (id INTEGER PRIMARY KEY, word TEXT); \
    INSERT INTO before VALUES (7, 'a'); \
    CREATE TABLE last_ids (meter TEXT NOT NULL, base INTEGER NOT NULL, tid INTEGER NOT NULL, \
    UNIQUE (meter, base)) STRICT; \
    CREATE TABLE month_tenths (meter TEXT NOT NULL, month INTEGER NOT NULL, \
    tenths INTEGER NOT NULL, UNIQUE (meter, month)) STRICT; \
    CREATE TABLE shift_totals (shift INTEGER PRIMARY KEY, sales INTEGER NOT NULL, \
    tenths INTEGER NOT NULL, cash INTEGER NOT NULL) STRICT; \
    CREATE TABLE after (id INTEGER PRIMARY KEY, word TEXT); INSERT INTO after VALUES (8, 'b')";

// The greatest number that a row of an office has.
const GREATEST: u64 = 1_000_000_000_000_000_000;

fn tables(alloc: Global) -> Result<Connection<MemStore>, Error> {
    let mut conn = Connection::open_in_memory(alloc)?;
    batch(&mut conn, TABLES)?;
    Ok(conn)
}

fn totals(sales: u64, tenths: u64, cash: u64) -> Totals {
    Totals {
        sales,
        tenths,
        cash,
    }
}

fn added(
    conn: &mut Connection<MemStore>,
    meter: &MeterNo,
    month: u32,
    tenths: u32,
) -> Result<Result<u64, TableError>, Error> {
    if !conn.is_autocommit() {
        return Err(Error::SqliteFailure(ErrorCode::TransactionState));
    }
    let mut tx = conn.transaction();
    let sum = add_tenths(&mut tx, meter, month, tenths);
    tx.commit()?;
    Ok(sum)
}

#[test]
fn the_greatest_tenths(rt: HostRuntime) -> Result<(), Fail> {
    let mut conn = tables(rt.alloc())?;
    let meter = MeterNo::read(b"12345678903").ok_or("a meter's number")?;
    batch(
        &mut conn,
        "INSERT INTO month_tenths VALUES ('12345678903', 252, 999999999999999999)",
    )?;
    assert_eq!(rt; added(&mut conn, &meter, 252, 1)?, Ok(GREATEST));
    assert_eq!(rt; tenths_in_month(&mut conn, &meter, 252)?, GREATEST);
    assert_eq!(rt;
        added(&mut conn, &meter, 252, 1)?,
        Err(TableError::RowOfNoOffice)
    );
    let found = tenths_in_month(&mut conn, &meter, 252);
    assert_eq!(rt; found, Err(TableError::RowOfNoOffice));
    batch(&mut conn, "UPDATE month_tenths SET tenths = -1")?;
    let found = tenths_in_month(&mut conn, &meter, 252);
    assert_eq!(rt; found, Err(TableError::RowOfNoOffice));
    Ok(())
}

fn counted(
    conn: &mut Connection<MemStore>,
    shift: u32,
    tenths: u32,
    price: u32,
) -> Result<Result<Totals, TableError>, Error> {
    if !conn.is_autocommit() {
        return Err(Error::SqliteFailure(ErrorCode::TransactionState));
    }
    let mut tx = conn.transaction();
    let all = add_to_shift(&mut tx, shift, tenths, price);
    tx.commit()?;
    Ok(all)
}

#[test]
fn the_greatest_totals(rt: HostRuntime) -> Result<(), Fail> {
    let mut conn = tables(rt.alloc())?;
    batch(
        &mut conn,
        "INSERT INTO shift_totals \
        VALUES (4, 999999999999999999, 999999999999999993, 999999999999999990)",
    )?;
    let want = totals(GREATEST, GREATEST, GREATEST);
    assert_eq!(rt; counted(&mut conn, 4, 7, 10)?, Ok(want));
    assert_eq!(rt; totals_of_shift(&mut conn, 4)?, want);
    assert_eq!(rt;
        counted(&mut conn, 4, 0, 0)?,
        Err(TableError::RowOfNoOffice)
    );
    for (shift, row) in [
        (5, "INSERT INTO shift_totals VALUES (5, -1, 1, 1)"),
        (6, "INSERT INTO shift_totals VALUES (6, 1, -1, 1)"),
        (
            7,
            "INSERT INTO shift_totals VALUES (7, 1, 1, 1000000000000000001)",
        ),
    ] {
        batch(&mut conn, row)?;
        let found = totals_of_shift(&mut conn, shift);
        assert_eq!(rt; found, Err(TableError::RowOfNoOffice));
    }
    Ok(())
}

// Under any base; and an identifier of more than 24 bits is no office's.
#[test]
fn sales_to_a_meter(rt: HostRuntime) -> Result<(), Fail> {
    let mut conn = tables(rt.alloc())?;
    let meter = MeterNo::read(b"12345678903").ok_or("a meter's number")?;
    assert_eq!(rt; has_sales(&mut conn, &meter)?, false);
    batch(
        &mut conn,
        "INSERT INTO last_ids VALUES ('79927398713', 2014, 5)",
    )?;
    assert_eq!(rt; has_sales(&mut conn, &meter)?, false);
    for base in ["1993", "2014", "2035"] {
        let mut conn = tables(rt.alloc())?;
        let row = format!(in rt.alloc(); "INSERT INTO last_ids VALUES ('12345678903', {base}, 0)")?;
        batch(&mut conn, &row)?;
        assert_eq!(rt; has_sales(&mut conn, &meter)?, true);
    }
    batch(
        &mut conn,
        "INSERT INTO last_ids VALUES ('12345678903', 2014, 16777216)",
    )?;
    let found = has_sales(&mut conn, &meter);
    assert_eq!(rt; found, Err(TableError::RowOfNoOffice));
    Ok(())
}
