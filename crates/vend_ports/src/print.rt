//! What is printed.

pub(crate) mod lines;
pub(crate) mod watched;
