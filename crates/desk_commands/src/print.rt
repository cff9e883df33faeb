//! What is printed of what was looked up.

pub(crate) mod found;
pub(crate) mod members;
pub(crate) mod page;
pub(crate) mod pages;
pub(crate) mod table;
pub(crate) mod totals;
