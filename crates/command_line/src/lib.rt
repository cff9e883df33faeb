//! The command line of the program: which words are commands, and what they ask for.
//!
//! `clap` parses the words, and each value is read by the product's own reader. `specs/Line.antt`
//! has the line, `specs/Commands.antt` what the words of each command say.
#![tactic(auto)]

pub use address::Address;
pub use asked::Asked;
pub use commands::audit::AuditWords;
pub use commands::meter::MeterWords;
pub use commands::quote::QuoteWords;
pub use commands::selfcheck::SelfcheckWords;
pub use commands::serve::ServeWords;
pub use commands::trial::TrialWords;
pub use line::{meant, parse};
pub use office_words::{AskWords, OfficeWords};
pub use place::{FilePlace, Place};
pub use syncs::{Syncs, syncs_asked};
pub use transform::Shipped;
pub use words::BadWords;

mod address;
mod argument;
mod asked;
mod commands;
mod description;
mod line;
mod office_words;
mod options;
mod place;
mod said;
mod syncs;
mod transform;
mod values;
mod words;
