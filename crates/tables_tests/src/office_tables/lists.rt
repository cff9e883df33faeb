//! Steps of a tariff that stand in any order, and rows that are no steps together.

use crate::office_tables::made::batch;
use crate::office_tables::rows::{ROWS, TABLES};
use book_tables::TableError;
use book_tables::reading::tariffs;
use office_rules::TariffName;
use sqlite::Connection;
use std::alloc::Global;
use std::test::Fail;
use tariff::{Step, Steps};

const STEP_TABLE: &str = "\
    CREATE TABLE tariff_steps (tariff TEXT NOT NULL REFERENCES tariffs (name), \
    place INTEGER NOT NULL, ends INTEGER, price INTEGER NOT NULL, UNIQUE (tariff, place)) STRICT";

// The rows stand neither by place nor by price, those of the other tariff between them.
const STEP_ROWS: &str = "\
    INSERT INTO tariff_steps VALUES ('home', 7, NULL, 50); \
    INSERT INTO tariff_steps VALUES ('home', 3, 400, 20); \
    INSERT INTO tariff_steps VALUES ('shop', 1, NULL, 95); \
    INSERT INTO tariff_steps VALUES ('home', 0, 100, 30); \
    INSERT INTO tariff_steps VALUES ('home', 5, 600, 40); \
    INSERT INTO tariff_steps VALUES ('home', 1, 200, 10); \
    INSERT INTO tariff_steps VALUES ('shop', 0, 150, 90); \
    INSERT INTO tariff_steps VALUES ('home', 6, 4294967295, 60); \
    INSERT INTO tariff_steps VALUES ('home', 2, 300, 1000000); \
    INSERT INTO tariff_steps VALUES ('home', 4, 500, 70)";

fn step(ends: Option<u32>, price: u32) -> Step {
    Step { ends, price }
}

fn steps_of_home(alloc: Global) -> Result<Steps, Fail> {
    let list = [
        step(Some(100), 30),
        step(Some(200), 10),
        step(Some(300), 1_000_000),
        step(Some(400), 20),
        step(Some(500), 70),
        step(Some(600), 40),
        step(Some(4_294_967_295), 60),
        step(None, 50),
    ];
    Ok(Steps::read(alloc, &list)?)
}

#[test]
fn rows_that_are_no_steps_together(rt: HostRuntime) -> Result<(), Fail> {
    let mut conn = Connection::open_in_memory(rt.alloc())?;
    batch(&mut conn, TABLES)?;
    batch(&mut conn, STEP_TABLE)?;
    batch(&mut conn, ROWS)?;
    batch(&mut conn, STEP_ROWS)?;
    let home = TariffName::read(b"home").ok_or("a name")?;
    let wrong = [
        "UPDATE tariff_steps SET ends = NULL WHERE tariff = 'home' AND place = 3",
        "UPDATE tariff_steps SET ends = 300 WHERE tariff = 'home' AND place = 3",
        "UPDATE tariff_steps SET ends = 4294967296 WHERE tariff = 'home' AND place = 3",
    ];
    for sql in wrong {
        batch(&mut conn, sql)?;
        let found = tariffs::steps_of(rt.alloc(), &mut conn, &home);
        assert_eq!(rt; found, Err(TableError::RowOfNoOffice));
    }
    // The connection and the rows are as they were.
    batch(
        &mut conn,
        "UPDATE tariff_steps SET ends = 400 WHERE tariff = 'home' AND place = 3",
    )?;
    let found = tariffs::steps_of(rt.alloc(), &mut conn, &home)?;
    assert_eq!(rt; found, Some(steps_of_home(rt.alloc())?));
    let ninth = "INSERT INTO tariff_steps VALUES ('home', 8, NULL, 1)";
    batch(&mut conn, ninth)?;
    let found = tariffs::steps_of(rt.alloc(), &mut conn, &home);
    assert_eq!(rt; found, Err(TableError::RowOfNoOffice));
    Ok(())
}
