use crate::office::Meter;
use tariff::Steps;

/// What the office has under the name of an import's row, before the import.
#[derive(Debug, Drop)]
pub enum RowFacts {
    /// The steps under a tariff row's name.
    Tariff(Option<Steps>),
    /// Whether there is a tariff of the name of a row of steps, and its steps of the row's day.
    Steps(bool, Option<Steps>),
    /// The meter under a meter row's number.
    Meter(Meter),
    /// There is no meter under a meter row's number; whether there is a tariff of its tariff name.
    NoMeter(bool),
}
