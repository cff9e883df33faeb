//! The office's tables: rows at the ends of their rules and outside them, sums that are too great,
//! and the tables that are found in a file, each beside other tables.

mod dated;
mod formats;
mod lists;
mod made;
mod openings;
mod rows;
mod sentences;
mod totals;
