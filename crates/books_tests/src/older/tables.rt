//! The tables of each format, by statements of the tests' own.

/// The tables of format 1.
pub(crate) const FIRST_TABLES: &str = "CREATE TABLE about (id INTEGER PRIMARY KEY, \
    format INTEGER NOT NULL) STRICT; \
    CREATE TABLE tariffs (name TEXT NOT NULL PRIMARY KEY) STRICT; \
    CREATE TABLE tariff_steps (tariff TEXT NOT NULL REFERENCES tariffs (name), \
    place INTEGER NOT NULL, ends INTEGER, price INTEGER NOT NULL, UNIQUE (tariff, place)) STRICT; \
    CREATE TABLE meters (meter TEXT NOT NULL PRIMARY KEY, base INTEGER NOT NULL, \
    tariff TEXT NOT NULL REFERENCES tariffs (name), secret TEXT NOT NULL) STRICT; \
    CREATE TABLE shifts (number INTEGER PRIMARY KEY, operator TEXT NOT NULL, \
    opened INTEGER NOT NULL, closed INTEGER) STRICT; \
    CREATE TABLE sales (number INTEGER PRIMARY KEY, moment INTEGER NOT NULL, \
    month INTEGER NOT NULL, shift INTEGER NOT NULL REFERENCES shifts (number), \
    operator TEXT NOT NULL, ref TEXT NOT NULL, meter TEXT NOT NULL REFERENCES meters (meter), \
    base INTEGER NOT NULL, tid INTEGER NOT NULL, rnd INTEGER NOT NULL, tenths INTEGER NOT NULL, \
    price INTEGER NOT NULL, tender INTEGER NOT NULL, digits TEXT NOT NULL, \
    UNIQUE (operator, ref), UNIQUE (meter, base, tid)) STRICT";

/// Those that came with format 2.
pub(crate) const SECOND_TABLES: &str = "CREATE TABLE last_ids (meter TEXT NOT NULL, \
    base INTEGER NOT NULL, tid INTEGER NOT NULL, UNIQUE (meter, base)) STRICT; \
    CREATE TABLE month_tenths (meter TEXT NOT NULL, month INTEGER NOT NULL, \
    tenths INTEGER NOT NULL, UNIQUE (meter, month)) STRICT; \
    CREATE TABLE shift_totals (shift INTEGER PRIMARY KEY, sales INTEGER NOT NULL, \
    tenths INTEGER NOT NULL, cash INTEGER NOT NULL) STRICT";

/// The one that came with format 3.
pub(crate) const THIRD_TABLES: &str = "CREATE TABLE meter_bases (meter TEXT NOT NULL \
    REFERENCES meters (meter), base INTEGER NOT NULL, UNIQUE (meter, base)) STRICT";
