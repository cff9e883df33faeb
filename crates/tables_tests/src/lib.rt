//! Tests of the office's tables, which have no code of their own: what an office in a file does not
//! show, and no clause says.
//!
//! What is expected was worked out by hand, from `docs/OFFICE.md`. That each statement does its
//! work is seen by `books_tests`.
#![tactic(auto)]

#[cfg(test)]
mod office_tables;
