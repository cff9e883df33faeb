//! The rules of a vending office: its requests, their decisions, and what a store finds.
//!
//! `docs/OFFICE.md` has the rules in words, and `specs/` has them as definitions.
#![tactic(auto)]

mod decision;
mod law;
mod name;
mod office;

pub use decision::{
    Answer, Category, Change, Edit, Facts, GREATEST_COUNT, ImportFacts, MeterAccount, Order,
    Refusal, Reply, Request, RowCause, RowFacts, Stamped, limits_law,
};
pub use law::store_law;
pub use name::{MeterNo, Operator, Ref, TariffName};
pub use office::{Meter, Row, Rows, Sale, Sales, Shift};
pub use sts_fields::Moment;
pub use tariff::Tender;
