//! What the values of papers are: names, numbers and money.

ghost use Rattle.std.specs.Prelude.{◌≡◌, decimal};
ghost use Rattle.asks.specs.Value.{IsTargetNumber};
ghost use Rattle.records.specs.Front.{IsFound};
ghost use Rattle.tariff.specs.Tender.{IsTender};
ghost use Rattle.office_rules.specs.Name.{IsMeterNo, IsName, IsOperator};

use crate::text::{number, small_number};
use office_rules::{GREATEST_COUNT, MeterNo, Operator, TariffName};
use tariff::Tender;

// The meter's number that a value is.
pub(crate) fn meter_of(value: &[u8]) -> Option<MeterNo>
    ensures { IsFound (λ meter. IsMeterNo meter × (value.now ≡ meter)) result }
{
    MeterNo::read(value)
}

// The operator that a value names.
pub(crate) fn operator_of(value: &[u8]) -> Option<Operator>
    ensures { IsFound (λ operator. IsOperator operator × (value.now ≡ operator)) result }
{
    Operator::read(value)
}

// The tariff that a value names.
pub(crate) fn tariff_of(value: &[u8]) -> Option<TariffName>
    ensures { IsFound (λ tariff. IsName tariff × (value.now ≡ tariff)) result }
{
    TariffName::read(value)
}

// The number of a sale or of a shift that a value writes.
pub(crate) fn row_number_of(value: &[u8]) -> Option<u32>
    ensures { IsFound (λ number. IsTargetNumber number × (value.now ≡ decimal number)) result }
{
    match small_number(value) {
        Some(number) if (1..=GREATEST_COUNT as u32).contains(&number) => Some(number),
        _ => None,
    }
}

// The tender whose cents a value writes.
pub(crate) fn tender_of(value: &[u8]) -> Option<Tender>
    ensures { IsFound (λ tender. IsTender tender × (value.now ≡ decimal tender)) result }
{
    match number(value) {
        Some(cents) => Tender::read(cents),
        None => None,
    }
}
