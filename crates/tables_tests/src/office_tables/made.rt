//! The tables of each format, as a test makes them by itself.
use sqlite::{Connection, Error, MemStore};
use std::alloc::Global;

/// What makes the tables, in their order: format 1 has the first six, format 2 nine, format 3 ten.
pub(crate) const TABLES: [&str; 11] = [
    "CREATE TABLE about (id INTEGER PRIMARY KEY, format INTEGER NOT NULL) STRICT",
    "CREATE TABLE tariffs (name TEXT NOT NULL PRIMARY KEY) STRICT",
    "CREATE TABLE tariff_steps (tariff TEXT NOT NULL REFERENCES tariffs (name), \
    place INTEGER NOT NULL, ends INTEGER, price INTEGER NOT NULL, UNIQUE (tariff, place)) STRICT",
    "CREATE TABLE meters (meter TEXT NOT NULL PRIMARY KEY, base INTEGER NOT NULL, \
    tariff TEXT NOT NULL REFERENCES tariffs (name), secret TEXT NOT NULL) STRICT",
    "CREATE TABLE shifts (number INTEGER PRIMARY KEY, operator TEXT NOT NULL, \
    opened INTEGER NOT NULL, closed INTEGER) STRICT",
    "CREATE TABLE sales (number INTEGER PRIMARY KEY, moment INTEGER NOT NULL, \
    month INTEGER NOT NULL, shift INTEGER NOT NULL REFERENCES shifts (number), \
    operator TEXT NOT NULL, ref TEXT NOT NULL, meter TEXT NOT NULL REFERENCES meters (meter), \
    base INTEGER NOT NULL, tid INTEGER NOT NULL, rnd INTEGER NOT NULL, tenths INTEGER NOT NULL, \
    price INTEGER NOT NULL, tender INTEGER NOT NULL, digits TEXT NOT NULL, \
    UNIQUE (operator, ref), UNIQUE (meter, base, tid)) STRICT",
    "CREATE TABLE last_ids (meter TEXT NOT NULL, base INTEGER NOT NULL, tid INTEGER NOT NULL, \
    UNIQUE (meter, base)) STRICT",
    "CREATE TABLE month_tenths (meter TEXT NOT NULL, month INTEGER NOT NULL, \
    tenths INTEGER NOT NULL, UNIQUE (meter, month)) STRICT",
    "CREATE TABLE shift_totals (shift INTEGER PRIMARY KEY, sales INTEGER NOT NULL, \
    tenths INTEGER NOT NULL, cash INTEGER NOT NULL) STRICT",
    "CREATE TABLE meter_bases (meter TEXT NOT NULL REFERENCES meters (meter), \
    base INTEGER NOT NULL, UNIQUE (meter, base)) STRICT",
    "CREATE TABLE dated_steps (tariff TEXT NOT NULL REFERENCES tariffs (name), \
    day INTEGER NOT NULL, place INTEGER NOT NULL, ends INTEGER, price INTEGER NOT NULL, \
    UNIQUE (tariff, day, place)) STRICT",
];

/// What is in a file beside the office's tables.
pub(crate) const BEFORE: &str = "CREATE TABLE before (id INTEGER PRIMARY KEY, word TEXT); \
    INSERT INTO before VALUES (7, 'a'); CREATE INDEX word_of ON before (word); \
    CREATE TABLE counted (id INTEGER PRIMARY KEY AUTOINCREMENT); \
    CREATE VIEW seen AS SELECT 1 AS one";

// These have no clause, so that the proof of a test does not carry the state of the database.

/// Runs each statement of a text.
pub(crate) fn batch(conn: &mut Connection<MemStore>, sql: &str) -> Result<(), Error> {
    conn.execute_batch(sql)
}

/// The one number that a text answers.
pub(crate) fn count(conn: &mut Connection<MemStore>, sql: &str) -> Result<i64, Error> {
    conn.query_row(sql, &[])?.get(0)
}

/// A file with other tables, and so many of the office's.
pub(crate) fn file(alloc: Global, many: usize) -> Result<Connection<MemStore>, Error> {
    let mut conn = Connection::open_in_memory(alloc)?;
    batch(&mut conn, BEFORE)?;
    for text in TABLES.iter().take(many) {
        batch(&mut conn, text)?;
    }
    Ok(conn)
}
