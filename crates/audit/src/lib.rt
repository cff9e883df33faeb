//! The audit of a database: whether it stands for an office that requests lead to.
//!
//! `specs/Audited.antt` says what is known where it passes (`IsSound`), `specs/Fails.antt` what a
//! finding says of the database (`Denies`).
#![tactic(auto)]

pub use audit_rows::{AuditFault, Finding, RowKey, Rule, TableName};
pub use audited::Audited;
pub use auditing::audit;
pub use following::{Follows, Part};
pub use reading::{office_rows, test_told};

mod audited;
mod auditing;
mod following;
mod reading;
