//! The words in which the openings of an office and the requests over a connection are stated:
//! which office a state stands for, what an edit makes of it, what a call leaves as it was, and why
//! a call fails; also the types of what is looked up and found.
//!
//! `specs/Stores.antt` has what a store and what a stop leaves stand for, `specs/Changing.antt`
//! what an edit makes, `specs/Same.antt` and `specs/Others.antt` what has not changed,
//! `specs/Failing.antt` why a request is answered that there was no memory or that the store
//! failed, `specs/FactsSeen.antt` what a request has seen, whatever the rows are,
//! `specs/Spoilt.antt` which rows stop it, and `specs/Health.antt` what is told of an office
//! without a read.
#![tactic(auto)]

pub use failing::{has_failed, refusal_of};
pub use lookup::{
    Found, Health, LaterSteps, ListedMeter, ListedShift, ListedTariff, Lookup, MeterSummary, Quote,
};

mod failing;
mod lookup;
