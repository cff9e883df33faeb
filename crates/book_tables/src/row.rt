//! The values of a row: as the office's types, and as parameters of a statement.

pub mod cells;
pub(crate) mod gathered;
pub(crate) mod office_records;
pub(crate) mod record;
pub(crate) mod total_records;
pub(crate) mod totals;
pub(crate) mod values;
