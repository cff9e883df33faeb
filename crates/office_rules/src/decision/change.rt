use crate::decision::Answer;
use crate::name::{MeterNo, TariffName};
use crate::office::{Meter, Rows, Sale, Shift};
use sts_fields::{Base, Day, Moment};
use tariff::Steps;

/// What a granted request adds, sets or takes back.
#[derive(Debug, Drop)]
pub enum Edit {
    AddTariff(TariffName, Steps),
    /// Steps of a tariff, valid from this day on.
    AddSteps(TariffName, Day, Steps),
    /// The tariff has no further steps any more that are valid from this day on.
    WithdrawSteps(TariffName, Day),
    AddMeter(MeterNo, Meter),
    /// The new rows of an import, at least one.
    AddRows(Rows),
    SetTariff(MeterNo, TariffName),
    /// The meter of this number has this base too, and it is its present one.
    MoveBase(MeterNo, Base),
    SetKey(MeterNo, u64),
    OpenShift(Shift),
    /// The shift of this number, closed at this moment.
    CloseShift(u32, Moment),
    AddSale(Sale),
}

/// What a granted request changes, `None` where that is nothing, and its answer.
#[derive(Debug, Drop)]
pub struct Change {
    pub edit: Option<Edit>,
    pub answer: Answer,
}
