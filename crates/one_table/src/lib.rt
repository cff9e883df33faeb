//! Statements over one table, in whatever database the table stands: what they mean, and what they
//! leave as it was.
//!
//! The crate knows no table of the office. `specs/` has the definitions, `proofs/` the theorems
//! that a crate of tables cites for each of its texts.
#![tactic(auto)]

pub use committing::{Change, CommitFault, change_once};
pub use deleting::delete;
pub use from_row::FromRow;
pub use inserting::insert;
pub use probing::test_open;
pub use read_fault::ReadFault;
pub use readers::{read_row, read_rows, read_rows_inside};
pub use updating::update;
pub use upserting::upsert;

mod committing;
mod compare;
mod deleting;
mod from_row;
mod inserting;
pub mod inspect;
pub mod make;
mod probing;
mod read_fault;
mod readers;
pub mod recognise;
mod updating;
mod upserting;
mod writing;
