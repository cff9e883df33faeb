ghost use Rattle.std.specs.Prelude.{◌<◌};

use crate::name::{MeterNo, Operator, Ref, TariffName};
use crate::office::{Meter, Rows};
use sts_fields::{Base, Day, Moment};
use tariff::{Steps, Tender};

/// What an operator asks the office for, paid by a tender of money.
#[derive(Clone, Copy, Debug, PartialEq, Eq)]
pub struct Order {
    pub operator: Operator,
    /// The order's name: an order that comes again under it is answered with the first sale.
    pub order_ref: Ref,
    pub meter: MeterNo,
    pub tender: Tender,
}

/// A request to the office (`docs/OFFICE.md`).
#[derive(Debug, Drop)]
pub enum Request {
    /// A tariff with its first steps.
    AddTariff(TariffName, Steps),
    /// Further steps of a tariff, valid from this day of UTC on.
    AddSteps(TariffName, Day, Steps),
    /// The further steps of a tariff that are valid from this day of UTC on are taken back.
    WithdrawSteps(TariffName, Day),
    AddMeter(MeterNo, Meter),
    /// All the rows, or none.
    Import(Rows),
    SetTariff(MeterNo, TariffName),
    /// The meter's next identifiers count from this base date.
    MoveBase(MeterNo, Base),
    /// The key of a meter that has no sale under any base.
    SetKey(MeterNo, u64),
    OpenShift(Operator),
    CloseShift(Operator),
    Sell(Order),
    /// A sale by its number.
    Reprint(u32),
    /// A shift by its number.
    ShiftReport(u32),
}

/// A request with the moment at which it counts and a nibble for its token.
#[derive(Debug, Drop)]
pub struct Stamped {
    pub moment: Moment,
    /// Below 16.
    pub nibble: u8,
    pub request: Request,
    ghost nibble_in_range: { nibble < 16 },
}
