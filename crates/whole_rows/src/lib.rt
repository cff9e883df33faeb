//! Rows as they are stored: whether each has all its columns, which no statement shows.
//!
//! SQLite reads a column that is not stored as NULL. `specs/Partial.antt` says what is found,
//! `specs/Ended.antt` what is left of the connection.
#![tactic(auto)]

pub use ending::end_looking;
pub use looking::first_partial;

mod ending;
mod looking;
