//! Requests and their decisions: what they are made of.
ghost use Rattle.std.specs.Prelude.{◌≡◌, ◌^◌};
ghost use Rattle.office_rules.specs.Office.Rows.{greatest_rows};

use crate::office::Rows;

mod answer;
mod category;
mod change;
mod facts;
mod import_facts;
mod meter_account;
mod ranges;
mod refusal;
mod request;
mod row_cause;
mod row_facts;

pub use answer::{Answer, Reply};
pub use category::Category;
pub use change::{Change, Edit};
pub use facts::Facts;
pub use import_facts::ImportFacts;
pub use meter_account::MeterAccount;
pub use refusal::Refusal;
pub use request::{Order, Request, Stamped};
pub use row_cause::RowCause;
pub use row_facts::RowFacts;

/// The greatest number of shifts, and of sales.
pub const GREATEST_COUNT: u64 = 1_000_000_000;

/// The limits of an office have these values.
pub fn limits_law()
    ensures greatest_count { GREATEST_COUNT ≡ 10 ^ 9 }
    ensures greatest_rows { Rows.MAX ≡ greatest_rows }
{}
