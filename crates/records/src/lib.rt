//! The texts of records, and their reading: objects of JSON with no blanks, whose members are
//! numbers, plain texts or null, in the order of the names.
#![tactic(auto)]

mod cell;
mod column;
mod columns;
mod law;
mod numbers;
mod objects;
mod reading;
#[cfg(test)]
mod tests;
mod texts;
mod writing;

pub use cell::Cell;
pub use column::Column;
pub use columns::{Columns, read_front, read_whole};
pub use law::record_law;
pub use objects::{cell_in, has_count};
pub use reading::read_number;
pub use texts::is_plain;
pub use writing::{put_cell, put_name, put_record};
