//! What a request looks at in the tables over one connection, and how it is decided by that; also
//! what is looked up, a page of sales, and the totals of a shift. Nothing is changed.
//!
//! `specs/Deciding.antt` says what is decided, and `docs/OFFICE.md` has the facts in words.
#![tactic(auto)]

pub use decided::Decided;
pub use decisions::decision_of;
pub use looking::{look_up, quote_law};
pub use pages::page;
pub use shift_totals::totals;

mod decided;
mod decisions;
mod facts;
mod looking;
mod pages;
mod shift_totals;
