//! The fields of a credit token: transfer amounts, token identifiers, base dates and moments.
//!
//! `docs/PROFILE.md` has the rules in words, and `specs/` has them as definitions.
#![tactic(auto)]

pub use amount::{Amount, amount_law};
pub use base::Base;
pub use calendar::{Civil, Memory, calendar_law, civil, month_of};
pub use day::{Day, day_law, day_of};
pub use day_fault::DayFault;
pub use fault::TidFault;
pub use limits::limits_law;
pub use moment::Moment;
pub use tid::{LAST_TID, fresh_law, minute, next_tid};

mod amount;
mod base;
mod calendar;
mod day;
mod day_fault;
mod fault;
mod limits;
mod moment;
mod tid;
