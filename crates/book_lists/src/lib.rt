//! The lists of an office, page by page: its tariffs, its meters and its shifts, by the keys that
//! the tables have; and the days from which a tariff has other steps, one after another.
//!
//! `specs/Pages.antt` says what a page by texts is, and `specs/Days.antt` what the next day is.
#![tactic(auto)]

pub use days::first_day_after;
pub use meters::meters_after;
pub use shifts::shifts_after;
pub use tariffs::tariffs_after;

mod days;
mod meters;
mod shifts;
mod tariffs;
mod texts;
mod values;

/// How many members a page has at the most.
pub const PAGE: u32 = 100;
