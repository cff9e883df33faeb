//! Look-ups, meters and tariffs by their words.

use desk::Lookup;
use office_rules::{MeterNo, Operator, Ref, TariffName, Tender};
use std::test::Fail;

/// The look-up that a line is for.
pub(crate) fn lookup(word: &str, value: &str) -> Result<Lookup, Fail> {
    let (first, second) = value.split_once(' ').unwrap_or((value, ""));
    Ok(match word {
        "health" => Lookup::Health,
        "meter" => Lookup::Meter(meter(first)?),
        "last-sale" => Lookup::LastSale(meter(first)?),
        "quote" => Lookup::Quote(
            meter(first)?,
            Tender::read(second.parse()?).ok_or("a tender")?,
        ),
        "sale-of-ref" => Lookup::SaleOfRef(
            Operator::read(first.as_bytes()).ok_or("an operator")?,
            Ref::read(second.as_bytes()).ok_or("a ref")?,
        ),
        "totals" => Lookup::ShiftTotals(first.parse()?),
        "tariffs" if first.is_empty() => Lookup::Tariffs(None),
        "tariffs" => Lookup::Tariffs(Some(tariff(first)?)),
        "meters" if first.is_empty() => Lookup::Meters(None),
        "meters" => Lookup::Meters(Some(meter(first)?)),
        "shifts" => Lookup::Shifts(first.parse()?),
        "sales" => Lookup::Sales(first.parse()?),
        _ => return Err(Fail::new(format_args!("nothing named: {word} {value}"))),
    })
}

/// A meter by its number.
pub(crate) fn meter(text: &str) -> Result<MeterNo, Fail> {
    Ok(MeterNo::read(text.as_bytes()).ok_or("a meter")?)
}

/// A tariff by its name.
pub(crate) fn tariff(text: &str) -> Result<TariffName, Fail> {
    Ok(TariffName::read(text.as_bytes()).ok_or("a tariff")?)
}
