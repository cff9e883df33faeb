//! Commands that need no office.

pub mod meter;
pub mod quote;
pub mod trial;
