//! The statements that write, inside a transaction.

pub mod additions;
pub mod bases;
pub mod changes;
pub mod dated_steps;
pub(crate) mod first_totals;
pub(crate) mod merge;
pub(crate) mod store;
pub mod totals;
