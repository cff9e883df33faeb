//! What the messages to the desk of a vending office ask, and what is replied to them. No office is
//! asked here: `desk` does that. `asks` has what an office is asked, and `conversation` the
//! messages themselves.
#![tactic(auto)]

mod desk_fault;
pub mod fields;
mod meaning;
mod named;
mod reply;
mod routes;
mod rows;

pub use asks::{put_day, put_steps};
pub use desk_fault::DeskFault;
pub use meaning::{Meaning, lookup_form, meaning_law};
pub use named::Named;
pub use reply::body::found_json;
pub use reply::form::Form;
pub use reply::http_date::{date_law, http_date, moment_given};
pub use reply::law::{day_text_law, head_law, json_law};
pub use reply::outcome::Outcome;
pub use reply::text::{reply_bytes, reply_to};
pub use routes::Routes;
pub use rows::read_rows;
