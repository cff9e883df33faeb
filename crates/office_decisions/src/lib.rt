//! How a vending office decides a request, by the rules that `office_rules` defines.
#![tactic(auto)]

mod decision;
mod law;

pub use decision::{decide, same_meter, same_steps};
pub use law::facts_law;
