//! What the tables of an office show, a line a row.

use sqlite::{Alter, Connection, Error};
use std::alloc::Global;
use std::test::Fail;

static TABLES: [&str; 12] = [
    "SELECT 'table ' || name FROM sqlite_schema WHERE type = 'table' ORDER BY name",
    "SELECT 'about ' || id || ' ' || format FROM about ORDER BY id",
    "SELECT 'tariff ' || name FROM tariffs ORDER BY name",
    "SELECT 'step ' || tariff || ' ' || place || ' ' || coalesce(ends, '-') || ' ' || price \
    FROM tariff_steps ORDER BY tariff, place",
    "SELECT 'meter ' || meter || ' ' || base || ' ' || tariff || ' ' || secret \
    FROM meters ORDER BY meter",
    "SELECT 'shift ' || number || ' ' || operator || ' ' || opened || ' ' || coalesce(closed, '-') \
    FROM shifts ORDER BY number",
    "SELECT 'sale ' || number || ' ' || moment || ' ' || month || ' ' || shift || ' ' || operator \
    || ' ' || ref || ' ' || meter || ' ' || base || ' ' || tid || ' ' || rnd || ' ' || tenths \
    || ' ' || price || ' ' || tender || ' ' || digits FROM sales ORDER BY number",
    "SELECT 'last ' || meter || ' ' || base || ' ' || tid FROM last_ids ORDER BY meter, base",
    "SELECT 'month ' || meter || ' ' || month || ' ' || tenths \
    FROM month_tenths ORDER BY meter, month",
    "SELECT 'totals ' || shift || ' ' || sales || ' ' || tenths || ' ' || cash \
    FROM shift_totals ORDER BY shift",
    "SELECT 'base ' || meter || ' ' || base FROM meter_bases ORDER BY meter, base",
    "SELECT 'from ' || tariff || ' ' || day || ' ' || place || ' ' || coalesce(ends, '-') \
    || ' ' || price FROM dated_steps ORDER BY tariff, day, place",
];

/// The names of the tables of an office, as `all_shown` shows them.
pub(crate) const ALL_TABLES: &str = "\
table about
table dated_steps
table last_ids
table meter_bases
table meters
table month_tenths
table sales
table shift_totals
table shifts
table tariff_steps
table tariffs
";

/// The names of all tables, and the rows of those that an office may have. A table that is not
/// there, or that has other columns, shows nothing but its name.
pub(crate) fn all_shown<S: Alter>(alloc: Global, conn: &mut Connection<S>) -> Result<String, Fail> {
    let mut text = String::new(alloc);
    for sql in TABLES {
        if let Ok(rows) = shown(alloc, conn, sql) {
            text.push_str(rows.as_str())?;
        }
    }
    Ok(text)
}

/// The first values of a statement's rows, a line each.
pub(crate) fn shown<S: Alter>(
    alloc: Global,
    conn: &mut Connection<S>,
    sql: &str,
) -> Result<String, Error> {
    let mut text = String::new(alloc);
    for row in &conn.query_all(sql, &[])? {
        let line: String = row.get(0)?;
        text.push_str(line.as_str())?;
        text.push_str("\n")?;
    }
    Ok(text)
}
