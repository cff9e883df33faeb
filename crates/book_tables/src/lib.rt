//! The tables of an office in one SQLite file: one function for each fixed statement.
//!
//! `docs/OFFICE.md` has the tables in words. `specs/` says which rows stand for which office.
#![tactic(auto)]

mod error;
pub mod format;
mod laws;
pub mod reading;
mod row;
mod texts;
pub mod writing;

pub use error::TableError;
pub use format::tables::PRESENT_FORMAT;
pub use laws::{members_law, stands_law};
pub use reading::lists::all_records;
pub use row::cells;
pub use row::gathered::Gathered;
pub use row::office_records::sale_of;
pub use row::record::{Record, first_record};
pub use row::totals::{SaleTotals, Totals};
