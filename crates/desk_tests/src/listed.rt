//! Members of lists, as a desk tells them.

use desk::{LaterSteps, ListedMeter, ListedShift, ListedTariff, Totals};
use office_rules::{MeterNo, Shift, TariffName};
use std::alloc::Global;
use std::test::Fail;
use sts_fields::{Base, Day};
use tariff::Steps;

/// A tariff with steps from two later days on, and one without.
pub(crate) fn listed_tariffs(alloc: Global) -> Result<Vec<ListedTariff>, Fail> {
    let mut later = Vec::new(alloc);
    for (from, steps) in [("2014-02-01", "500:100;:250"), ("2099-12-31", ":1")] {
        let steps = Steps::of_text(alloc, steps.as_bytes())?;
        later.push(LaterSteps {
            from: Day::of_text(from.as_bytes())?,
            steps,
        })?;
    }
    let mut tariffs = Vec::new(alloc);
    tariffs.push(ListedTariff {
        name: TariffName::read(b"flat").ok_or("a tariff")?,
        steps: Steps::of_text(alloc, b":100")?,
        later,
    })?;
    tariffs.push(ListedTariff {
        name: TariffName::read(b"z-9").ok_or("a tariff")?,
        steps: Steps::of_text(alloc, b"1:1;4294967295:1000000;:7")?,
        later: Vec::new(alloc),
    })?;
    Ok(tariffs)
}

/// Two, under two base dates.
pub(crate) fn listed_meters(alloc: Global) -> Result<Vec<ListedMeter>, Fail> {
    let mut meters = Vec::new(alloc);
    meters.push(ListedMeter {
        number: MeterNo::read(b"12345678903").ok_or("a meter")?,
        base: Base::Y2014,
        tariff: TariffName::read(b"flat").ok_or("a tariff")?,
    })?;
    meters.push(ListedMeter {
        number: MeterNo::read(b"79927398713").ok_or("a meter")?,
        base: Base::Y1993,
        tariff: TariffName::read(b"z-9").ok_or("a tariff")?,
    })?;
    Ok(meters)
}

/// This shift, and one that is open and has the greatest numbers.
pub(crate) fn listed_shifts(
    alloc: Global,
    shift: Shift,
    totals: Totals,
) -> Result<Vec<ListedShift>, Fail> {
    let open = Shift {
        number: 1_000_000_000,
        operator: shift.operator,
        opened: shift.opened,
        closed: None,
    };
    let greatest = Totals {
        sales: 0,
        tenths: 0,
        cash: 18_446_744_073_709_551_615,
    };
    let mut shifts = Vec::new(alloc);
    shifts.push(ListedShift { shift, totals })?;
    shifts.push(ListedShift {
        shift: open,
        totals: greatest,
    })?;
    Ok(shifts)
}
