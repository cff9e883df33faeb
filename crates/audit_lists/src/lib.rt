//! Which rows of an office's tables are found: the first that breaks a rule between rows, that is
//! not what the sales say, or that no requests lead to.
//!
//! It knows no database: the rows of each table come as a list of records. `specs/Told.antt` says
//! what is told of the rows by themselves, and `specs/reached` what of requests.
#![tactic(auto)]

pub use fault::OfficeFault;
pub use laws::office_law;
pub use office::test_office;
pub use reached::{honest_law, test_reached};
pub use tokens::{MeterPlaces, meter_places, test_tokens, tokens_law};

mod bases;
mod fault;
mod key;
mod laws;
mod numbers;
mod office;
mod places;
mod reached;
mod rules;
mod steps;
mod tokens;
mod totals;
