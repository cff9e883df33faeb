//! The office of a vending station: the laws that hold of it, and an office in plain vectors.
//!
//! `docs/OFFICE.md` has the rules in words, and `specs/` of `office_rules` has them as definitions.
#![tactic(auto)]

mod law;
mod lists;

pub use law::{apart_law, credited_law, history_law, life_law, lives_law, office_law, reached_law};
pub use lists::Lists;
pub use office_decisions::decide;
pub use office_rules::{
    Answer, Category, Change, Edit, Facts, GREATEST_COUNT, ImportFacts, Meter, MeterAccount,
    MeterNo, Operator, Order, Ref, Refusal, Reply, Request, Row, RowCause, RowFacts, Rows, Sale,
    Sales, Shift, Stamped, TariffName, limits_law, store_law,
};
pub use sts_fields::Moment;
pub use tariff::Tender;
