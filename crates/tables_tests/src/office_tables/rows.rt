//! Rows whose values are outside their rules or at the ends of them, beside other tables.
use crate::office_tables::made::batch;
use book_tables::TableError;
use book_tables::reading::{meters, sales, shifts};
use book_tables::writing::changes::set_key;
use office_rules::{Meter, MeterNo, Operator, Ref, Sale, TariffName};
use sqlite::{Connection, Error, ErrorCode, MemStore};
use std::alloc::Global;
use std::test::Fail;
use sts_fields::{Amount, Base, Day, Moment};
use tariff::Tender;

pub(crate) const TABLES: &str = "\
    CREATE TABLE before (id INTEGER PRIMARY KEY, number INTEGER NOT NULL) STRICT; \
    CREATE TABLE about (id INTEGER PRIMARY KEY, format INTEGER NOT NULL) STRICT; \
    CREATE TABLE tariffs (name TEXT NOT NULL PRIMARY KEY) STRICT; \
    CREATE TABLE meters (meter TEXT NOT NULL PRIMARY KEY, base INTEGER NOT NULL, \
    tariff TEXT NOT NULL REFERENCES tariffs (name), secret TEXT NOT NULL) STRICT; \
    CREATE TABLE shifts (number INTEGER PRIMARY KEY, operator TEXT NOT NULL, \
    opened INTEGER NOT NULL, closed INTEGER) STRICT; \
    CREATE TABLE sales (number INTEGER PRIMARY KEY, moment INTEGER NOT NULL, \
    month INTEGER NOT NULL, shift INTEGER NOT NULL REFERENCES shifts (number), \
    operator TEXT NOT NULL, ref TEXT NOT NULL, meter TEXT NOT NULL REFERENCES meters (meter), \
    base INTEGER NOT NULL, tid INTEGER NOT NULL, rnd INTEGER NOT NULL, tenths INTEGER NOT NULL, \
    price INTEGER NOT NULL, tender INTEGER NOT NULL, digits TEXT NOT NULL, \
    UNIQUE (operator, ref), UNIQUE (meter, base, tid)) STRICT; \
    CREATE TABLE sales_after (number INTEGER PRIMARY KEY, shift INTEGER NOT NULL) STRICT";

pub(crate) const ROWS: &str = "\
    INSERT INTO before VALUES (7, 70); INSERT INTO sales_after VALUES (9, 1); \
    INSERT INTO about VALUES (1, 1); \
    INSERT INTO tariffs VALUES ('home'); INSERT INTO tariffs VALUES ('shop'); \
    INSERT INTO meters VALUES ('01234567897', 2014, 'home', '0123456789abcdef'); \
    INSERT INTO shifts VALUES (1, 'ann', 1700000000, 1700010000); \
    INSERT INTO shifts VALUES (2, 'bob', 1700020000, NULL); \
    INSERT INTO shifts VALUES (3, 'ann', 1700030000, NULL); \
    INSERT INTO sales VALUES (1, 1700000100, 370, 1, 'ann', 'r1', '01234567897', 2014, \
    5000, 3, 120, 990, 1000, '00072057602627981690'); \
    INSERT INTO sales VALUES (2, 1700030100, 370, 3, 'ann', 'r2', '01234567897', 2014, \
    5001, 4, 130, 1990, 2000, '00144115200960832043')";

fn meter_no() -> Result<MeterNo, Fail> {
    Ok(MeterNo::read(b"01234567897").ok_or("a meter's number")?)
}

// These rows, after a change. It has no clause, so that the proof of a test does not carry the
// state of the database.
fn changed(alloc: Global, change: &str) -> Result<Connection<MemStore>, Error> {
    let mut conn = Connection::open_in_memory(alloc)?;
    batch(&mut conn, TABLES)?;
    batch(&mut conn, ROWS)?;
    batch(&mut conn, change)?;
    Ok(conn)
}

fn sale_after(alloc: Global, change: &str) -> Result<Result<Option<Sale>, TableError>, Fail> {
    let mut conn = changed(alloc, change)?;
    Ok(sales::sale_numbered(&mut conn, 1))
}

// Whether the first shift is no shift of an office after a change.
fn spoils_a_shift(alloc: Global, change: &str) -> Result<bool, Fail> {
    let mut conn = changed(alloc, change)?;
    Ok(shifts::shift_numbered(&mut conn, 1) == Err(TableError::RowOfNoOffice))
}

fn meter_after(alloc: Global, change: &str) -> Result<Result<Option<Meter>, TableError>, Fail> {
    let mut conn = changed(alloc, change)?;
    Ok(meters::meter_numbered(&mut conn, &meter_no()?))
}

const GREATEST: &str = "\
    INSERT INTO shifts VALUES (1000000000, 'ann', 1700000000, NULL); \
    INSERT INTO meters VALUES ('79927398713', 2035, 'home', '0123456789abcdef'); \
    INSERT INTO sales VALUES (1000000000, 4102444799, 1283, 1000000000, 'abcdefghijklmno9', \
    'ABCDEFGHIJKLMNOPQRSTUVWXYZ-01234', '79927398713', 2035, 16777215, 15, 18201624, 100000000, \
    100000000, '99999999999999999999')";

#[test]
fn the_greatest_sale(rt: HostRuntime) -> Result<(), Fail> {
    let sale = Sale {
        number: 1_000_000_000,
        moment: Moment::of_secs(4_102_444_799).ok_or("a moment")?,
        shift: 1_000_000_000,
        operator: Operator::read(b"abcdefghijklmno9").ok_or("an operator")?,
        order_ref: Ref::read(b"ABCDEFGHIJKLMNOPQRSTUVWXYZ-01234").ok_or("a ref")?,
        meter: MeterNo::read(b"79927398713").ok_or("a meter's number")?,
        base: Base::Y2035,
        tid: 16_777_215,
        rnd: 15,
        tenths: Amount::of_tenths(18_201_624).ok_or("an amount")?,
        price: 100_000_000,
        tender: Tender::read(100_000_000).ok_or("a tender")?,
        digits: *b"99999999999999999999",
    };
    let mut conn = changed(rt.alloc(), GREATEST)?;
    assert_eq!(rt; sales::sale_numbered(&mut conn, 1_000_000_000)?, Some(sale));
    assert_eq!(rt; sales::last_sale_number(&mut conn)?, Some(1_000_000_000));
    assert_eq!(rt; shifts::last_shift_number(&mut conn)?, Some(1_000_000_000));
    Ok(())
}

#[test]
fn sales_outside_their_rules(rt: HostRuntime) -> Result<(), Fail> {
    let changes = [
        "UPDATE sales SET moment = 725846399 WHERE number = 1",
        "INSERT INTO shifts VALUES (1000000001, 'ann', 1700000000, NULL); \
            UPDATE sales SET shift = 1000000001 WHERE number = 1",
        "UPDATE sales SET operator = 'a-b' WHERE number = 1",
        "UPDATE sales SET ref = '' WHERE number = 1",
        "INSERT INTO meters VALUES ('12345678904', 2035, 'home', '0123456789abcdef'); \
            UPDATE sales SET meter = '12345678904' WHERE number = 1",
        "UPDATE sales SET base = 2000 WHERE number = 1",
        "UPDATE sales SET tid = 16777216 WHERE number = 1",
        "UPDATE sales SET rnd = 16 WHERE number = 1",
        "UPDATE sales SET tenths = 16385 WHERE number = 1",
        "UPDATE sales SET price = -1 WHERE number = 1",
        "UPDATE sales SET price = 4294967296 WHERE number = 1",
        "UPDATE sales SET price = 1001 WHERE number = 1",
        "UPDATE sales SET tender = 100000001 WHERE number = 1",
        "UPDATE sales SET digits = '0007205760262798169' WHERE number = 1",
        "UPDATE sales SET digits = '0007205760262798169x' WHERE number = 1",
    ];
    for change in changes {
        let found = sale_after(rt.alloc(), change)?;
        assert_eq!(rt; found, Err(TableError::RowOfNoOffice), "{change}");
    }
    let found = sale_after(rt.alloc(), "UPDATE sales SET ref = 'a-b' WHERE number = 1")?;
    assert!(rt; found.is_ok());
    Ok(())
}

#[test]
fn shifts_outside_their_rules(rt: HostRuntime) -> Result<(), Fail> {
    let changes = [
        "UPDATE shifts SET operator = '' WHERE number = 1",
        "UPDATE shifts SET opened = 725846399 WHERE number = 1",
        "UPDATE shifts SET closed = 725846399 WHERE number = 1",
        "UPDATE shifts SET closed = 4102444800 WHERE number = 1",
    ];
    for change in changes {
        assert!(rt; spoils_a_shift(rt.alloc(), change)?, "{change}");
    }
    Ok(())
}

#[test]
fn meters_outside_their_rules(rt: HostRuntime) -> Result<(), Fail> {
    let changes = [
        "UPDATE meters SET base = 2000",
        "INSERT INTO tariffs VALUES ('a b'); UPDATE meters SET tariff = 'a b'",
        "UPDATE meters SET secret = '0123456789ABCDEF'",
        "UPDATE meters SET secret = '0123456789abcde'",
    ];
    for change in changes {
        let found = meter_after(rt.alloc(), change)?;
        assert_eq!(rt; found, Err(TableError::RowOfNoOffice), "{change}");
    }
    Ok(())
}

// What is read of one column has its rule too.
#[test]
fn columns_outside_their_rules(rt: HostRuntime) -> Result<(), Fail> {
    let mut conn = changed(
        rt.alloc(),
        "UPDATE sales SET number = 1000000001 WHERE number = 2",
    )?;
    assert_eq!(rt;
        sales::last_sale_number(&mut conn),
        Err(TableError::RowOfNoOffice)
    );
    let mut conn = changed(
        rt.alloc(),
        "UPDATE shifts SET number = 1000000001 WHERE number = 2",
    )?;
    assert_eq!(rt;
        shifts::last_shift_number(&mut conn),
        Err(TableError::RowOfNoOffice)
    );
    Ok(())
}

#[test]
fn the_greatest_key(rt: HostRuntime) -> Result<(), Fail> {
    let meter = Meter {
        base: Base::Y1993,
        tariff: TariffName::read(b"home").ok_or("a tariff's name")?,
        key: u64::MAX,
    };
    let change = "UPDATE meters SET base = 1993, secret = 'ffffffffffffffff'";
    assert_eq!(rt; meter_after(rt.alloc(), change)?, Ok(Some(meter)));
    Ok(())
}

#[test]
fn want_of_memory_is_told_apart(rt: HostRuntime) {
    let memory = TableError::Database(Error::SqliteFailure(ErrorCode::OutOfMemory));
    assert!(rt; memory.is_memory());
    assert!(rt; !TableError::Database(Error::InvalidQuery).is_memory());
    assert!(rt; !TableError::RowOfNoOffice.is_memory());
}

fn sold_since(alloc: Global, change: &str, days: u32) -> Result<Result<bool, TableError>, Fail> {
    let mut conn = changed(alloc, change)?;
    let day = Day::of_days(days).ok_or("a day")?;
    Ok(sales::sold_since(&mut conn, day))
}

// The moments are 11274 and 11275 days after 1993-01-01, and 1700092800 is the first second of the
// day after these.
#[test]
fn sales_since_a_day(rt: HostRuntime) -> Result<(), Fail> {
    let swapped = "UPDATE sales SET moment = 1700030100 WHERE number = 1; \
        UPDATE sales SET moment = 1700000100 WHERE number = 2";
    let first = "UPDATE sales SET moment = 1700092800 WHERE number = 1";
    let last = "UPDATE sales SET moment = 1700092799 WHERE number = 1";
    for (change, days, sold) in [
        ("", 0, true),
        ("", 11_275, true),
        ("", 11_276, false),
        (swapped, 11_275, true),
        (swapped, 11_276, false),
        (first, 11_276, true),
        (first, 11_277, false),
        (last, 11_276, false),
        ("DELETE FROM sales", 0, false),
    ] {
        let found = sold_since(rt.alloc(), change, days)?;
        assert_eq!(rt; found, Ok(sold), "{change} {days}");
    }
    let spoilt = "UPDATE sales SET number = 1000000001 WHERE number = 2";
    assert_eq!(rt;
        sold_since(rt.alloc(), spoilt, 11_275)?,
        Err(TableError::RowOfNoOffice)
    );
    // The row of no office is not one of those that were made since.
    assert_eq!(rt; sold_since(rt.alloc(), spoilt, 11_276)?, Ok(false));
    Ok(())
}

fn keyed(
    conn: &mut Connection<MemStore>,
    number: &MeterNo,
    key: u64,
) -> Result<Result<(), TableError>, Error> {
    if !conn.is_autocommit() {
        return Err(Error::SqliteFailure(ErrorCode::TransactionState));
    }
    let mut tx = conn.transaction();
    let done = set_key(&mut tx, number, key);
    tx.commit()?;
    Ok(done)
}

#[test]
fn another_key(rt: HostRuntime) -> Result<(), Fail> {
    let other = "INSERT INTO meters VALUES ('79927398713', 2035, 'home', '0123456789abcdef')";
    let mut conn = changed(rt.alloc(), other)?;
    let number = meter_no()?;
    for key in [0, u64::MAX] {
        assert_eq!(rt; keyed(&mut conn, &number, key)?, Ok(()));
        let meter = meters::meter_numbered(&mut conn, &number)?;
        assert_eq!(rt; meter.map(|meter| meter.key), Some(key));
    }
    let neighbour = MeterNo::read(b"79927398713").ok_or("a meter's number")?;
    let meter = meters::meter_numbered(&mut conn, &neighbour)?;
    assert_eq!(rt; meter.map(|meter| meter.key), Some(0x0123_4567_89ab_cdef));
    Ok(())
}
