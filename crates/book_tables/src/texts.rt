//! The texts of the fixed statements on the office's tables.

// A query of all columns of sales but the month, which the moment tells.
macro_rules! select_sale {
    ($rest:literal) => {
        concat!(
            "SELECT number, moment, shift, operator, ref, meter, base, tid, rnd, tenths, price, \
            tender, digits",
            $rest
        )
    };
}

macro_rules! select_shift {
    ($rest:literal) => {
        concat!("SELECT number, operator, opened, closed FROM shifts", $rest)
    };
}

/// What defines each of the tables, in the order in which they are made.
pub(crate) const TABLES: [&str; 11] = [
    "CREATE TABLE about (id INTEGER PRIMARY KEY, format INTEGER NOT NULL) STRICT",
    "CREATE TABLE tariffs (name TEXT NOT NULL PRIMARY KEY) STRICT",
    "CREATE TABLE tariff_steps (tariff TEXT NOT NULL REFERENCES tariffs (name), \
    place INTEGER NOT NULL, ends INTEGER, price INTEGER NOT NULL, UNIQUE (tariff, place)) STRICT",
    "CREATE TABLE meters (meter TEXT NOT NULL PRIMARY KEY, base INTEGER NOT NULL, \
    tariff TEXT NOT NULL REFERENCES tariffs (name), secret TEXT NOT NULL) STRICT",
    "CREATE TABLE shifts (number INTEGER PRIMARY KEY, operator TEXT NOT NULL, \
    opened INTEGER NOT NULL, closed INTEGER) STRICT",
    "CREATE TABLE sales (number INTEGER PRIMARY KEY, moment INTEGER NOT NULL, \
    month INTEGER NOT NULL, shift INTEGER NOT NULL REFERENCES shifts (number), \
    operator TEXT NOT NULL, ref TEXT NOT NULL, meter TEXT NOT NULL REFERENCES meters (meter), \
    base INTEGER NOT NULL, tid INTEGER NOT NULL, rnd INTEGER NOT NULL, tenths INTEGER NOT NULL, \
    price INTEGER NOT NULL, tender INTEGER NOT NULL, digits TEXT NOT NULL, \
    UNIQUE (operator, ref), UNIQUE (meter, base, tid)) STRICT",
    "CREATE TABLE last_ids (meter TEXT NOT NULL, base INTEGER NOT NULL, tid INTEGER NOT NULL, \
    UNIQUE (meter, base)) STRICT",
    "CREATE TABLE month_tenths (meter TEXT NOT NULL, month INTEGER NOT NULL, \
    tenths INTEGER NOT NULL, UNIQUE (meter, month)) STRICT",
    "CREATE TABLE shift_totals (shift INTEGER PRIMARY KEY, sales INTEGER NOT NULL, \
    tenths INTEGER NOT NULL, cash INTEGER NOT NULL) STRICT",
    "CREATE TABLE meter_bases (meter TEXT NOT NULL REFERENCES meters (meter), \
    base INTEGER NOT NULL, UNIQUE (meter, base)) STRICT",
    "CREATE TABLE dated_steps (tariff TEXT NOT NULL REFERENCES tariffs (name), \
    day INTEGER NOT NULL, place INTEGER NOT NULL, ends INTEGER, price INTEGER NOT NULL, \
    UNIQUE (tariff, day, place)) STRICT",
];

/// The names of the tables, in the same order.
pub(crate) const NAMES: [&str; 11] = [
    "about",
    "tariffs",
    "tariff_steps",
    "meters",
    "shifts",
    "sales",
    "last_ids",
    "month_tenths",
    "shift_totals",
    "meter_bases",
    "dated_steps",
];

pub(crate) const NEW_FORMAT: &str = "INSERT INTO about (id, format) VALUES (1, 4)";

pub(crate) const FORMAT_SET: &str = "UPDATE about SET format = 4 WHERE id = 1";

pub(crate) const FORMAT: &str = "SELECT id, format FROM about LIMIT 2";

pub(crate) const SALE_NUMBERED: &str = select_sale!(" FROM sales WHERE number = ?1");

pub(crate) const SALE_OF_REF: &str = select_sale!(" FROM sales WHERE operator = ?1 AND ref = ?2");

pub(crate) const SALE_OF_TID: &str = select_sale!(
    " FROM sales WHERE meter = ?1 AND base = ?2 AND tid = ?3"
);

pub(crate) const LAST_SALE_NUMBER: &str = "SELECT number FROM sales ORDER BY number DESC LIMIT 1";

// No index serves it: it walks the sales back from the last one to the first that passes.
pub(crate) const SOLD_SINCE: &str =
    "SELECT number FROM sales WHERE moment >= ?1 ORDER BY number DESC LIMIT 1";

pub(crate) const SHIFT_NUMBERED: &str = select_shift!(" WHERE number = ?1");

// At most one row passes; while a shift is open, it is found from the end.
pub(crate) const OPEN_SHIFT: &str = select_shift!(
    " WHERE operator = ?1 AND closed IS NULL ORDER BY number DESC LIMIT 1"
);

pub(crate) const LAST_SHIFT_NUMBER: &str = "SELECT number FROM shifts ORDER BY number DESC LIMIT 1";

pub(crate) const METER_NUMBERED: &str = "SELECT base, tariff, secret FROM meters WHERE meter = ?1";

pub(crate) const TARIFF_NAMED: &str = "SELECT name FROM tariffs WHERE name = ?1";

pub(crate) const STEPS_OF: &str =
    "SELECT ends, price FROM tariff_steps WHERE tariff = ?1 ORDER BY place";

pub(crate) const NEW_SALE: &str =
    "INSERT INTO sales (number, moment, month, shift, operator, ref, meter, base, tid, rnd, \
    tenths, price, tender, digits) \
    VALUES (?1, ?2, ?3, ?4, ?5, ?6, ?7, ?8, ?9, ?10, ?11, ?12, ?13, ?14)";

pub(crate) const NEW_SHIFT: &str =
    "INSERT INTO shifts (number, operator, opened, closed) VALUES (?1, ?2, ?3, ?4)";

pub(crate) const SHIFT_CLOSED: &str = "UPDATE shifts SET closed = ?2 WHERE number = ?1";

pub(crate) const NEW_METER: &str =
    "INSERT INTO meters (meter, base, tariff, secret) VALUES (?1, ?2, ?3, ?4)";

pub(crate) const NEW_TARIFF: &str = "INSERT INTO tariffs (name) VALUES (?1)";

pub(crate) const NEW_STEP: &str =
    "INSERT INTO tariff_steps (tariff, place, ends, price) VALUES (?1, ?2, ?3, ?4)";

pub(crate) const TARIFF_SET: &str = "UPDATE meters SET tariff = ?2 WHERE meter = ?1";

pub(crate) const KEY_SET: &str = "UPDATE meters SET secret = ?2 WHERE meter = ?1";

pub(crate) const SALES_AFTER: &str = select_sale!(
    " FROM sales WHERE number > ?1 ORDER BY number LIMIT ?2"
);

// No index serves it: it walks all sales.
pub(crate) const SALES_OF_SHIFT: &str = select_sale!(
    " FROM sales WHERE shift = ?1 ORDER BY number"
);

pub(crate) const LAST_ID: &str = "SELECT tid FROM last_ids WHERE meter = ?1 AND base = ?2";

// The index of meter and base gives the few rows of a meter.
pub(crate) const LAST_ID_OF_METER: &str =
    "SELECT tid FROM last_ids WHERE meter = ?1 ORDER BY tid DESC LIMIT 1";

pub(crate) const STEPS_FROM: &str =
    "SELECT ends, price FROM dated_steps WHERE tariff = ?1 AND day = ?2 ORDER BY place";

// The index of tariff, day and place gives the days of a tariff, and this walks it backwards to the
// first one.
pub(crate) const FIRST_DAY_UNTIL: &str =
    "SELECT day FROM dated_steps WHERE tariff = ?1 AND day <= ?2 ORDER BY day DESC LIMIT 1";

pub(crate) const NEW_DATED_STEP: &str =
    "INSERT INTO dated_steps (tariff, day, place, ends, price) VALUES (?1, ?2, ?3, ?4, ?5)";

pub(crate) const STEPS_WITHDRAWN: &str = "DELETE FROM dated_steps WHERE tariff = ?1 AND day = ?2";

pub(crate) const NEW_BASE: &str = "INSERT INTO meter_bases (meter, base) VALUES (?1, ?2)";

pub(crate) const BASE_SET: &str = "UPDATE meters SET base = ?2 WHERE meter = ?1";

pub(crate) const MONTH_TENTHS: &str =
    "SELECT tenths FROM month_tenths WHERE meter = ?1 AND month = ?2";

pub(crate) const SHIFT_TOTALS: &str =
    "SELECT sales, tenths, cash FROM shift_totals WHERE shift = ?1";

pub(crate) const NEW_LAST_ID: &str = "INSERT INTO last_ids (meter, base, tid) VALUES (?1, ?2, ?3)";

pub(crate) const NEW_MONTH_TENTHS: &str =
    "INSERT INTO month_tenths (meter, month, tenths) VALUES (?1, ?2, ?3)";

pub(crate) const NEW_SHIFT_TOTALS: &str =
    "INSERT INTO shift_totals (shift, sales, tenths, cash) VALUES (?1, ?2, ?3, ?4)";

pub(crate) const LAST_ID_SET: &str = "INSERT INTO last_ids (meter, base, tid) VALUES (?1, ?2, ?3) \
    ON CONFLICT (meter, base) DO UPDATE SET tid = excluded.tid RETURNING tid";

pub(crate) const TENTHS_ADDED: &str =
    "INSERT INTO month_tenths (meter, month, tenths) VALUES (?1, ?2, ?3) \
    ON CONFLICT (meter, month) DO UPDATE SET tenths = tenths + excluded.tenths RETURNING tenths";

pub(crate) const SALE_COUNTED: &str =
    "INSERT INTO shift_totals (shift, sales, tenths, cash) VALUES (?1, 1, ?2, ?3) \
    ON CONFLICT (shift) DO UPDATE SET sales = sales + 1, tenths = tenths + excluded.tenths, \
    cash = cash + excluded.cash RETURNING sales, tenths, cash";
