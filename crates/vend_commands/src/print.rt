//! What is printed.

pub(crate) mod explanation;
