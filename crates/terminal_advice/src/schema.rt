//! What the texts of a database's tables say is in the way of an office.

use crate::advice::Advice;
use bstr::ByteSlice;
use std::alloc::Global;

// The tables of an office.
const TABLES: [&[u8]; 11] = [
    b"about",
    b"tariffs",
    b"tariff_steps",
    b"meters",
    b"shifts",
    b"sales",
    b"last_ids",
    b"month_tenths",
    b"shift_totals",
    b"meter_bases",
    b"dated_steps",
];

/// What is in the way, by the beginning of a database, which has the statements that made its
/// tables.
pub(crate) fn schema_fault(alloc: Global, beginning: &[u8]) -> Option<Advice> {
    let text = beginning.to_ascii_lowercase(alloc).ok()?;
    let text = text.as_slice();
    if text.contains_str(b"create virtual table ") {
        return Some(Advice::ShutVirtual);
    }
    let mut statements = text.split_str(b"create ");
    while let Some(statement) = statements.next() {
        if statement.starts_with(b"trigger ") && is_of_office(statement) {
            return Some(Advice::ShutTrigger);
        }
        if is_index(statement) && statement.contains_str(b" where ") && is_of_office(statement) {
            return Some(Advice::ShutIndex);
        }
    }
    None
}

fn is_index(statement: &[u8]) -> bool {
    statement.starts_with(b"index ") || statement.starts_with(b"unique index ")
}

// Whether a statement is on a table of the office: its name stands alone behind `on`.
fn is_of_office(statement: &[u8]) -> bool {
    let Some((_, behind)) = statement.split_once_str(b" on ") else {
        return false;
    };
    TABLES.iter().any(|table| {
        behind.strip_prefix(*table).is_some_and(|rest| !rest
            .first()
            .is_some_and(|byte| byte.is_ascii_alphanumeric() || *byte == b'_'))
    })
}
