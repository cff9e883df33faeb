//! The statements that read.

pub mod dated_steps;
pub(crate) mod lists;
pub mod meters;
pub mod pages;
pub mod sale_lists;
pub mod sales;
pub mod shifts;
pub mod tariffs;
pub mod totals;
