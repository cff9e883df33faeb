//! Steps of later days whose rows are no office's, between other tables.
use crate::office_tables::made::{batch, count};
use book_tables::TableError;
use book_tables::reading::dated_steps::{first_day_until, latest_steps, steps_from};
use book_tables::writing::dated_steps::withdraw_steps;
use office_rules::TariffName;
use sqlite::{Connection, Error, ErrorCode, MemStore};
use std::test::Fail;
use sts_fields::Day;

const TABLES: &str = "CREATE TABLE before (day INTEGER PRIMARY KEY, word TEXT); \
    INSERT INTO before VALUES (7, 'a'); \
    CREATE TABLE tariffs (name TEXT NOT NULL PRIMARY KEY) STRICT; \
    INSERT INTO tariffs VALUES ('home'), ('shop'), ('farm'); \
    CREATE TABLE dated_steps (tariff TEXT NOT NULL REFERENCES tariffs (name), \
    day INTEGER NOT NULL, place INTEGER NOT NULL, ends INTEGER, price INTEGER NOT NULL, \
    UNIQUE (tariff, day, place)) STRICT; \
    CREATE TABLE after (id INTEGER PRIMARY KEY, day INTEGER); INSERT INTO after VALUES (8, 11)";

// A price of 0, a day before the first one, and two steps that have no end.
const ROWS: &str = "INSERT INTO dated_steps VALUES ('shop', 0, 0, NULL, 0), \
    ('shop', 39080, 0, 1, 1), ('shop', 39080, 1, NULL, 1000000), ('farm', -1, 0, NULL, 5), \
    ('home', 20, 0, NULL, 30), ('home', 10, 0, NULL, 10), ('home', 10, 1, NULL, 20)";

fn name(text: &[u8]) -> Result<TariffName, Fail> {
    Ok(TariffName::read(text).ok_or("a name")?)
}

fn day(days: u32) -> Result<Day, Fail> {
    Ok(Day::of_days(days).ok_or("a day")?)
}

#[test]
fn dated_rows_outside_their_rules(rt: HostRuntime) -> Result<(), Fail> {
    let mut conn = Connection::open_in_memory(rt.alloc())?;
    batch(&mut conn, TABLES)?;
    batch(&mut conn, ROWS)?;
    let shop = name(b"shop")?;
    let found = steps_from(rt.alloc(), &mut conn, &shop, day(0)?);
    assert_eq!(rt; found, Err(TableError::RowOfNoOffice));
    // The rows of its last day are sound.
    let found = first_day_until(&mut conn, &shop, day(39_080)?)?;
    assert_eq!(rt; found.map(|first| first.days()), Some(39_080));
    let found = first_day_until(&mut conn, &name(b"farm")?, day(5)?);
    assert_eq!(rt; found, Err(TableError::RowOfNoOffice));
    let home = name(b"home")?;
    let found = latest_steps(rt.alloc(), &mut conn, &home, day(10)?);
    assert_eq!(rt; found, Err(TableError::RowOfNoOffice));
    assert!(rt; latest_steps(rt.alloc(), &mut conn, &home, day(20)?)?.is_some());
    Ok(())
}

fn withdrawn(
    conn: &mut Connection<MemStore>,
    name: &TariffName,
    day: Day,
) -> Result<Result<(), TableError>, Error> {
    if !conn.is_autocommit() {
        return Err(Error::SqliteFailure(ErrorCode::TransactionState));
    }
    let mut tx = conn.transaction();
    let done = withdraw_steps(&mut tx, name, day);
    tx.commit()?;
    Ok(done)
}

// Those of the day go, each of them, and a row of no office too; all others stay.
#[test]
fn withdrawn_rows_are_gone(rt: HostRuntime) -> Result<(), Fail> {
    let mut conn = Connection::open_in_memory(rt.alloc())?;
    batch(&mut conn, TABLES)?;
    batch(&mut conn, ROWS)?;
    let shop = name(b"shop")?;
    let all = "SELECT count(*) FROM dated_steps";
    for (days, left) in [(5, 7), (39_080, 5), (0, 4), (0, 4)] {
        assert_eq!(rt; withdrawn(&mut conn, &shop, day(days)?)?, Ok(()));
        assert_eq!(rt; count(&mut conn, all)?, left);
    }
    let home = name(b"home")?;
    assert!(rt; steps_from(rt.alloc(), &mut conn, &home, day(20)?)?.is_some());
    assert_eq!(rt; withdrawn(&mut conn, &home, day(20)?)?, Ok(()));
    assert_eq!(rt; steps_from(rt.alloc(), &mut conn, &home, day(20)?)?, None);
    assert_eq!(rt; count(&mut conn, all)?, 3);
    Ok(())
}
