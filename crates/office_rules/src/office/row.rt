use crate::name::{MeterNo, TariffName};
use crate::office::Meter;
use sts_fields::Day;
use tariff::Steps;

/// A row of an import: what AddTariff, AddSteps or AddMeter would add.
#[derive(Debug, Drop)]
pub enum Row {
    Tariff(TariffName, Steps),
    Steps(TariffName, Day, Steps),
    Meter(MeterNo, Meter),
}
