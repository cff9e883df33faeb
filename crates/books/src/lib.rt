//! The office in one SQLite file: the requests that change it are each one commit, made before the
//! answer.
//!
//! `docs/PROMISE.md` says what a stop may leave. `specs/Keeps.antt` has the relation between books
//! and a life that the contracts speak of.
#![tactic(auto)]

pub use book_opening::OpenFault;
pub use book_states::{
    Found, Health, LaterSteps, ListedMeter, ListedShift, ListedTariff, Lookup, MeterSummary, Quote,
};
pub use book_tables::Totals;
pub use books::Books;
pub use headline::headline_law;
pub use last_sales::last_sale_law;
pub use refused_files::RefusedFiles;
pub use reopening::{found_law, opening_law};

mod books;
mod headline;
mod last_sales;
mod refused_files;
mod reopening;
