//! The rows of the office's tables, each table read whole.
//!
//! `specs/Breaks.antt` says which row is found: the first that by itself is none of an office's.
//! `specs/AllRows.antt` says what is known of a database whose tables were read. What several rows
//! have to agree in is not looked at here.
#![tactic(auto)]

pub use book_tables::reading::pages::MeterRow;
pub use finding::{AuditFault, Finding, RowKey, Rule};
pub use laws::{rows_law, stored_law};
pub use named::Named;
pub use office_rows::OfficeRows;
pub use reading::read_office_rows;
pub use rows::{BaseRow, DatedStepRow, LastId, MonthTenths, ShiftTotals, StepRow};
pub use table_name::TableName;

mod broken;
mod finding;
mod laws;
mod listed;
mod named;
mod office_rows;
mod reading;
mod rows;
mod sale_row;
mod seen;
mod source;
mod table_name;
mod tables;
