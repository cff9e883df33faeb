//! Credit tokens: twenty digits that carry an amount and an identifier, under a block transform and
//! a key.
//!
//! `docs/PROFILE.md` has the rules in words, and `specs/` has them as definitions.
#![tactic(auto)]

pub use check::check16;
pub use demo::Demo;
pub use fault::TokenFault;
pub use fields::Fields;
pub use key::{key_law, key_text, read_key};
pub use meter::meter_law;
pub use reading::{read, read_law};
pub use token::{token_law, write};
pub use transform::{BlockTransform, Plain};

mod block;
mod check;
mod demo;
mod digits;
mod fault;
mod fields;
mod key;
mod meter;
mod reading;
mod token;
mod transform;
