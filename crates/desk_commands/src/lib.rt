//! What is printed of what was looked up, and the commands that ask a running desk for it.
//!
//! `specs/AskedOfDesk.antt` and `specs/ListedAtDesk.antt` say what such a command sends and prints.
#![tactic(auto)]

pub mod at_desk;
mod exchange;
mod list_at_desk;
mod page_order;
mod print;

pub use print::found::put_found;
pub use print::pages::put_page;
pub use print::totals::put_totals;
