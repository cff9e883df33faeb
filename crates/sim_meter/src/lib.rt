//! A simulated meter: it takes the tokens entered into it, each once, and adds up their amounts.
//!
//! `docs/PROFILE.md` has the rules in words, `sts_token` has them as definitions.
#![tactic(auto)]

pub use answer::Answer;
pub use meter::Meter;
pub use probe::{Probe, place};

mod answer;
mod call_count;
mod meter;
mod probe;
mod store;
