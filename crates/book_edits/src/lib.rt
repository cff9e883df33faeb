//! The edit of a request in one transaction over a connection.
//!
//! `specs/Transaction.antt` says how its commit ends.
#![tactic(auto)]

pub use transaction::commit;

mod changing;
mod transaction;
