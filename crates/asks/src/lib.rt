//! What an office is asked: each kind of ask by one row of a table, with its method, its target,
//! its body and what it grants; the message of an ask, and the ask of a message.
#![tactic(auto)]

mod ask;
mod csv;
mod endpoint;
mod fault;
mod kind;
mod law;
mod lookup;
mod parts;
mod reading;
#[cfg(test)]
mod tests;
mod texts;
mod value;
mod writing;

pub use ask::{Ask, Bulk};
pub use csv::Csv;
pub use endpoint::{Body, Endpoint, Grants, Slot};
pub use fault::AskFault;
pub use kind::AskKind;
pub use law::ask_law;
pub use lookup::Lookup;
pub use texts::{put_day, put_steps};
pub use value::{Value, ValueKind};
