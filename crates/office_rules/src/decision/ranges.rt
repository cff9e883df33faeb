//! What the types of a request keep, told to whoever has one.
ghost use Rattle.std.specs.Prelude.{All};
ghost use Rattle.sts_fields.specs.Day.{IsDay};
ghost use Rattle.tariff.specs.Steps.{IsSteps};
ghost use Rattle.office_rules.specs.Name.{IsName};
ghost use Rattle.office_rules.specs.Decision.Requests.{IsMeter, IsOrder, IsRequest, IsRow};

use crate::decision::{Order, Request, Stamped};
use crate::name::{MeterNo, TariffName};
use crate::office::{Meter, Row};
use sts_fields::Day;
use tariff::Steps;

impl Stamped {
    ghost use Rattle.office_rules.specs.Decision.Requests.{IsStamped};

    /// Says that each value is within its rule, as its types see to. It does nothing.
    pub fn keeps_ranges(&self)
        ensures { IsStamped self.now }
    {
        let _secs = self.moment.secs();
        request_keeps_ranges(&self.request);
    }
}

// Only looks at each part, whose contract then tells its rule.
fn request_keeps_ranges(request: &Request)
    ensures { IsRequest request.now }
{
    match request {
        Request::AddTariff(name, steps) => {
            let _name = name.as_bytes();
            let _steps = steps.as_slice();
        }
        Request::AddSteps(name, day, steps) => steps_keep_ranges(name, *day, steps),
        Request::WithdrawSteps(name, day) => {
            let _name = name.as_bytes();
            let _day = day.days();
        }
        Request::AddMeter(number, meter) => meter_keeps_ranges(number, meter),
        Request::Import(rows) => rows_keep_ranges(rows.as_slice()),
        Request::SetTariff(number, name) => {
            let _number = number.as_bytes();
            let _name = name.as_bytes();
        }
        Request::MoveBase(number, _) => {
            let _number = number.as_bytes();
        }
        Request::SetKey(number, key) => {
            let _number = number.as_bytes();
            let _key = *key;
        }
        Request::OpenShift(operator) => {
            let _operator = operator.as_bytes();
        }
        Request::CloseShift(operator) => {
            let _operator = operator.as_bytes();
        }
        Request::Sell(order) => order_keeps_ranges(order),
        Request::Reprint(_) => {}
        Request::ShiftReport(_) => {}
    }
}

// The rows are gone through once: a list tells nothing of its members before they are looked at.
fn rows_keep_ranges(rows: &[Row])
    ensures { All IsRow rows.now }
{
    for row in rows {
        row_keeps_ranges(row);
    }
}

fn row_keeps_ranges(row: &Row)
    ensures { IsRow row.now }
{
    match row {
        Row::Tariff(name, steps) => {
            let _name = name.as_bytes();
            let _steps = steps.as_slice();
        }
        Row::Steps(name, day, steps) => steps_keep_ranges(name, *day, steps),
        Row::Meter(number, meter) => meter_keeps_ranges(number, meter),
    }
}

fn steps_keep_ranges(name: &TariffName, day: Day, steps: &Steps)
    ensures { IsName name.now × IsDay day × IsSteps steps.now }
{
    let _name = name.as_bytes();
    let _day = day.days();
    let _steps = steps.as_slice();
}

fn meter_keeps_ranges(number: &MeterNo, meter: &Meter)
    ensures { IsMeter number.now meter.now }
{
    let _number = number.as_bytes();
    let _tariff = meter.tariff.as_bytes();
    let _key = meter.key;
}

fn order_keeps_ranges(order: &Order)
    ensures { IsOrder order.now }
{
    let _operator = order.operator.as_bytes();
    let _ref = order.order_ref.as_bytes();
    let _meter = order.meter.as_bytes();
    let _tender = order.tender.cents();
}
