//! What holds of the program's commands together, as laws: contracts of functions without work.
//!
//! `README.md` has the laws in words, and `specs/` has what they speak of as definitions.
#![tactic(auto)]

mod computer;
mod laws;

pub use computer::computer_law;
pub use laws::{
    at_desk_law, broken_law, format_law, list_law, offer_law, program_law, receipt_once, run_law,
    sell_law, serve_law, sound_law,
};
