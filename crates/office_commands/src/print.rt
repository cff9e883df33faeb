//! What is printed.

pub(crate) mod audit_lines;
pub(crate) mod opening;
pub(crate) mod sales;
pub(crate) mod totals;
