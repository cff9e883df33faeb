//! What is looked up in an office, and what is found. No key of a meter is.

pub use asks::Lookup;
use book_tables::Totals;
use office_rules::{MeterNo, Moment, Sale, Shift, TariffName};
use sts_fields::{Amount, Base, Day};
use tariff::{Steps, Tender};

/// What is found where something is looked up. A page has at most `book_lists::PAGE` members, and
/// one that has fewer is the last one.
#[derive(Debug, Drop)]
pub enum Found {
    Health(Health),
    Meter(MeterSummary),
    Sale(Sale),
    Quote(Quote),
    /// The number of the shift, and its totals.
    ShiftTotals(u32, Totals),
    Tariffs(Vec<ListedTariff>),
    Meters(Vec<ListedMeter>),
    Shifts(Vec<ListedShift>),
    Sales(Vec<Sale>),
}

/// How an office is, as far as its books know without a read of the store.
#[derive(Clone, Copy, Debug, PartialEq, Eq)]
pub struct Health {
    /// How many sales there are, at most 10^9.
    pub sales: u64,
    /// The moment of the last sale.
    pub last_moment: Option<Moment>,
    /// Whether the last change that was to be written was answered `Store`, and none was committed
    /// since.
    pub write_failed: bool,
}

/// What is told of a meter.
#[derive(Clone, Copy, Debug, PartialEq, Eq)]
pub struct MeterSummary {
    pub number: MeterNo,
    pub base: Base,
    pub tariff: TariffName,
    /// The tenths of a kWh sold to it in the month, under any base.
    pub tenths: u64,
    /// The number of the last sale to it.
    pub last_sale: Option<u32>,
}

/// What a tender would buy for a meter, as a sale at the moment would have it.
#[derive(Clone, Copy, Debug, PartialEq, Eq)]
pub struct Quote {
    pub meter: MeterNo,
    /// The meter's tariff.
    pub tariff: TariffName,
    pub tender: Tender,
    pub tenths: Amount,
    /// What the amount costs, in whole cents, at most the tender.
    pub price: u32,
}

/// A tariff of a list.
#[derive(Debug, Drop)]
pub struct ListedTariff {
    pub name: TariffName,
    /// Its steps on the day of the moment.
    pub steps: Steps,
    /// Those that begin on later days, by day.
    pub later: Vec<LaterSteps>,
}

/// The steps that a tariff has from a later day on.
#[derive(Debug, Drop)]
pub struct LaterSteps {
    pub from: Day,
    pub steps: Steps,
}

/// A meter of a list.
#[derive(Clone, Copy, Debug, PartialEq, Eq)]
pub struct ListedMeter {
    pub number: MeterNo,
    pub base: Base,
    pub tariff: TariffName,
}

/// A shift of a list, with its running totals.
#[derive(Clone, Copy, Debug, PartialEq, Eq)]
pub struct ListedShift {
    pub shift: Shift,
    pub totals: Totals,
}
