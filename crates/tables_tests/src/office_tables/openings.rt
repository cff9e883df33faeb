//! What is found in a file: an office of a format, nothing under its names, or something else.
use crate::office_tables::made::{BEFORE, TABLES, batch, file};
use book_tables::PRESENT_FORMAT;
use book_tables::format::number::format_number;
use book_tables::format::presence::format_here;
use sqlite::Connection;
use std::alloc::Global;
use std::test::Fail;

const AUDIT: &str = "CREATE TABLE audit (sale INTEGER REFERENCES sales (number))";

// What is found where so many of the tables were made, and then this.
fn found_after(alloc: Global, many: usize, sql: &str) -> Result<Option<u32>, Fail> {
    let mut conn = file(alloc, many)?;
    batch(&mut conn, sql)?;
    Ok(format_here(alloc, conn.schema())?)
}

// What is found where the table at this place is made by this text, and the others by their own.
fn found_with(alloc: Global, changed: usize, text: &str) -> Result<Option<u32>, Fail> {
    let mut conn = Connection::open_in_memory(alloc)?;
    batch(&mut conn, BEFORE)?;
    for (at, own) in TABLES.into_iter().enumerate() {
        batch(&mut conn, if at == changed { text } else { own })?;
    }
    Ok(format_here(alloc, conn.schema())?)
}

#[test]
fn each_format_is_told_by_its_tables(rt: HostRuntime) -> Result<(), Fail> {
    assert_eq!(rt; PRESENT_FORMAT, 4);
    let formats = [
        Some(0),
        None,
        None,
        None,
        None,
        None,
        Some(1),
        None,
        None,
        Some(2),
        Some(3),
        Some(4),
    ];
    let after = "CREATE TABLE after (id INTEGER PRIMARY KEY)";
    for (many, want) in formats.into_iter().enumerate() {
        assert_eq!(rt; found_after(rt.alloc(), many, after)?, want);
        assert_eq!(rt; found_after(rt.alloc(), many, AUDIT)?, None);
    }
    Ok(())
}

#[test]
fn a_table_of_a_later_format_is_another(rt: HostRuntime) -> Result<(), Fail> {
    for (many, at) in [(0, 10), (6, 8), (6, 10), (9, 10), (9, 9)] {
        let want = if (many, at) == (9, 9) { Some(3) } else { None };
        assert_eq!(rt; found_after(rt.alloc(), many, TABLES[at])?, want);
    }
    Ok(())
}

#[test]
fn the_format_is_read(rt: HostRuntime) -> Result<(), Fail> {
    let mut conn = file(rt.alloc(), 6)?;
    assert_eq!(rt; format_number(rt.alloc(), &mut conn)?, None, "no row");
    let rows = [
        ("INSERT INTO about (id, format) VALUES (1, 1)", Some(1)),
        ("UPDATE about SET format = 7", Some(7)),
        ("UPDATE about SET format = 4294967295", Some(u32::MAX)),
        ("UPDATE about SET format = 4294967296", None),
        ("UPDATE about SET format = -1", None),
        ("UPDATE about SET id = 2, format = 1", None),
        ("INSERT INTO about (id, format) VALUES (1, 1)", None),
        ("DELETE FROM about WHERE id = 2", Some(1)),
    ];
    for (sql, want) in rows {
        batch(&mut conn, sql)?;
        assert_eq!(rt; format_number(rt.alloc(), &mut conn)?, want, "{sql}");
    }
    Ok(())
}

#[test]
fn a_table_that_differs_is_another(rt: HostRuntime) -> Result<(), Fail> {
    let rows = [
        (0, TABLES[0], Some(4)),
        (
            4,
            "CREATE TABLE [shifts] (number INTEGER PRIMARY KEY, operator TEXT NOT NULL, \
            opened INT NOT NULL, closed INT) STRICT",
            Some(4),
        ),
        (
            4,
            "CREATE TABLE shifts (number INTEGER PRIMARY KEY, operator TEXT NOT NULL, \
            opened INTEGER NOT NULL) STRICT",
            None,
        ),
        (
            4,
            "CREATE TABLE shifts (number INTEGER PRIMARY KEY, operator TEXT NOT NULL, \
            opened TEXT NOT NULL, closed INTEGER) STRICT",
            None,
        ),
        (
            2,
            "CREATE TABLE tariff_steps (tariff TEXT NOT NULL REFERENCES tariffs (name), \
            place INTEGER NOT NULL, ends INTEGER, price INTEGER NOT NULL) STRICT",
            None,
        ),
        (
            6,
            "CREATE TABLE last_ids (meter TEXT NOT NULL, base INTEGER NOT NULL, \
            tid INTEGER NOT NULL, UNIQUE (meter, base, tid)) STRICT",
            None,
        ),
        (
            9,
            "CREATE TABLE meter_bases (meter TEXT NOT NULL, base INTEGER NOT NULL, \
            UNIQUE (meter, base)) STRICT",
            None,
        ),
        (
            0,
            "CREATE TABLE about (id INTEGER PRIMARY KEY, format INTEGER NOT NULL) STRICT; \
            CREATE INDEX stray ON about (format)",
            None,
        ),
    ];
    for (at, text, want) in rows {
        assert_eq!(rt; found_with(rt.alloc(), at, text)?, want);
    }
    Ok(())
}

#[test]
fn a_name_that_is_taken_is_another(rt: HostRuntime) -> Result<(), Fail> {
    let rows = [
        ("CREATE VIEW meters AS SELECT 1 AS one", None),
        ("CREATE INDEX sales ON before (word)", None),
        ("CREATE TABLE dated_steps (id INTEGER PRIMARY KEY)", None),
        ("CREATE TABLE meter (id INTEGER PRIMARY KEY)", Some(0)),
    ];
    for (text, want) in rows {
        assert_eq!(rt; found_after(rt.alloc(), 0, text)?, want);
    }
    Ok(())
}
