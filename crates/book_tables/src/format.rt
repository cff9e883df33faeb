//! The tables that each format has, and how older ones are brought up.

pub(crate) mod fill;
pub mod number;
pub mod presence;
pub(crate) mod tables;
pub mod upgrade;
