//! Block tariffs: their steps, what electricity costs, and what a tender of money buys.
//!
//! `docs/PROFILE.md` has the rules in words, and `specs/` has them as definitions.
#![tactic(auto)]

pub use bought::Buy;
pub use cost::{MAX_PRIOR, price, price_law};
pub use fault::StepsFault;
pub use limits::limits_law;
pub use purchase::{buy, purchase_law};
pub use step::Step;
pub use steps::{Steps, steps_text_law};
pub use tender::Tender;

mod bought;
mod check;
mod cost;
mod fault;
mod limits;
mod purchase;
mod step;
mod steps;
mod tender;
mod text;
