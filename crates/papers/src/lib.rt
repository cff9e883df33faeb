//! What a vending office prints and reads: receipts, shift reports, exports, and files of imports.
//!
//! `docs/TEXTS.md` has each text and file with an example, and `specs/` has them as definitions.
#![tactic(auto)]

pub use exports::{export, sales_csv};
pub use fault::TextFault;
pub use file_kind::FileKind;
pub use imports::{read_meters, read_tariffs};
pub use laws::{export_fields_law, export_law, import_law, receipt_law};
pub use outlet::Outlet;
pub use output::write_whole;
pub use receipts::{RECEIPT_ROOM, receipt, receipt_in_place, receipt_text};
pub use reports::{report_law, shift_report, shift_text};
pub use row_fault::RowFault;

mod blank;
mod exports;
mod fault;
mod file_form;
mod file_kind;
mod imports;
mod laws;
mod lines;
mod outlet;
mod output;
mod read_row;
mod receipts;
mod record;
mod reports;
mod room;
mod row_fault;
