use crate::decision::{ImportFacts, MeterAccount};
use crate::office::{Meter, Sale, Sales, Shift};
use tariff::Steps;

/// What the tests of a request look at (`docs/OFFICE.md`, "Requests").
///
/// A request looks at some of the fields; the others may be left empty.
#[derive(Debug, Drop)]
pub struct Facts {
    /// The steps under the name of the tariff that is added.
    pub tariff: Option<Steps>,
    /// The meter under the request's number, where one is added, set, moved or given a key.
    pub meter: Option<Meter>,
    /// Whether there is a tariff of that meter's tariff name, of the one that it is set to, or of
    /// the one whose steps are added or withdrawn.
    pub has_tariff: bool,
    /// The steps of the tariff that have the first day of those that are added or withdrawn.
    pub dated_steps: Option<Steps>,
    /// Whether a sale, to any meter, was made on the day of the steps that are withdrawn, or later.
    pub sold_since: bool,
    /// Whether there is a sale, under any base, to the meter that is given a key.
    pub has_sales: bool,
    /// What there is under the names of an import's rows.
    pub rows: Option<ImportFacts>,
    /// The open shift of the request's operator.
    pub open_shift: Option<Shift>,
    /// How many shifts there are.
    pub shift_count: u64,
    /// The sale that the operator made under the order's ref.
    pub first_sale: Option<Sale>,
    /// What the sale looks at of the order's meter.
    pub account: Option<MeterAccount>,
    /// How many sales there are.
    pub sale_count: u64,
    /// The sale of the request's number.
    pub sale: Option<Sale>,
    /// The shift of the request's number, with its sales by number.
    pub report: Option<(Shift, Sales)>,
}

impl Facts {
    ghost use Rattle.std.specs.Prelude.{◌≡◌};
    ghost use Rattle.office_rules.specs.Decision.Facts.{no_facts};

    /// The facts in which nothing was found.
    pub fn none() -> Facts
        ensures { result ≡ no_facts }
    {
        Facts {
            tariff: None,
            meter: None,
            has_tariff: false,
            dated_steps: None,
            sold_since: false,
            has_sales: false,
            rows: None,
            open_shift: None,
            shift_count: 0,
            first_sale: None,
            account: None,
            sale_count: 0,
            sale: None,
            report: None,
        }
    }
}
