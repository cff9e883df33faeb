//! The rules of each table in turn.

ghost use Rattle.std.specs.Prelude.{IfErr, IfOk, OnOk, length};
ghost use Rattle.audit_rows.specs.declared.finding.Rule.TheVariants as rule;
ghost use Rattle.audit_lists.specs.Keys.{ArePlaces};
ghost use Rattle.audit_lists.specs.RowKeys.{base_key, name_key};
ghost use Rattle.audit_lists.specs.Rules.{IsInShift, dated_rules, meter_rules, sale_rules};
ghost use Rattle.audit_lists.specs.Rules.{shift_rules, tariff_rules, tie_rules};
ghost use Rattle.audit_lists.specs.Tables.{listed_sales};
ghost use Rattle.audit_lists.specs.Ties.{AreKept, Each, FindsFirst, IsFirst, Says, each};

use crate::bases::test_bases;
use crate::fault::{OfficeFault, found};
use crate::key::{
    Before, First, Identifier, Name, Number, Open, OrderRef, Place, Tariff, UnderBase,
};
use crate::numbers::{test_count, test_numbers};
use crate::places::{Places, places_of, test_names};
use crate::steps::test_steps;
use audit_rows::{BaseRow, DatedStepRow, Finding, MeterRow, OfficeRows, Rule, StepRow};
use office_rules::{Sale, Shift, TariffName};
use std::alloc::Global;

// The places of the tariffs' names, where tariffs and their steps keep the rules.
fn test_tariffs<'a>(
    alloc: Global,
    tariffs: &'a [TariffName],
    steps: &'a [StepRow],
) -> Result<Places<'a>, OfficeFault>
    ensures passes { OnOk result (AreKept (tariff_rules tariffs.now steps.now)) }
    ensures places { IfOk result (λ names.
        ArePlaces name_key names tariffs.now (length tariffs.now)) }
    ensures found { IfErr result (Says (FindsFirst (tariff_rules tariffs.now steps.now))) }
{
    let names = places_of::<TariffName, Name>(alloc, tariffs, Rule::Twice)?;
    let places = places_of::<StepRow, Place>(alloc, steps, Rule::Twice)?;
    test_names::<StepRow, Tariff, TariffName, Name>(steps, tariffs, &names, Rule::Missing)?;
    test_names::<StepRow, Before, StepRow, Place>(steps, steps, &places, Rule::Steps)?;
    test_steps::<StepRow, Place, TariffName, Name>(alloc, steps, &places, tariffs)?;
    Ok(names)
}

// Nothing where dated steps keep the rules.
fn test_dated<'a>(
    alloc: Global,
    tariffs: &'a [TariffName],
    steps: &'a [DatedStepRow],
    names: &Places<'a>,
) -> Result<(), OfficeFault>
    requires { ArePlaces name_key names.now tariffs.now (length tariffs.now) }
    ensures passes { OnOk result (AreKept (dated_rules tariffs.now steps.now)) }
    ensures found { IfErr result (Says (FindsFirst (dated_rules tariffs.now steps.now))) }
{
    let places = places_of::<DatedStepRow, Place>(alloc, steps, Rule::Twice)?;
    test_names::<DatedStepRow, Tariff, TariffName, Name>(steps, tariffs, names, Rule::Missing)?;
    test_names::<DatedStepRow, Before, DatedStepRow, Place>(steps, steps, &places, Rule::Steps)?;
    test_steps::<DatedStepRow, Place, DatedStepRow, First>(alloc, steps, &places, steps)
}

// The places of the bases, where meters and their bases keep the rules.
fn test_meters<'a>(
    alloc: Global,
    tariffs: &'a [TariffName],
    meters: &'a [MeterRow],
    bases: &'a [BaseRow],
    names: &Places<'a>,
) -> Result<Places<'a>, OfficeFault>
    requires { ArePlaces name_key names.now tariffs.now (length tariffs.now) }
    ensures passes { OnOk result (AreKept (meter_rules tariffs.now meters.now bases.now)) }
    ensures places { IfOk result (λ places.
        ArePlaces base_key places bases.now (length bases.now)) }
    ensures found { IfErr result
        (Says (FindsFirst (meter_rules tariffs.now meters.now bases.now))) }
{
    let numbers = places_of::<MeterRow, Number>(alloc, meters, Rule::Twice)?;
    let places = places_of::<BaseRow, UnderBase>(alloc, bases, Rule::Twice)?;
    test_names::<MeterRow, Tariff, TariffName, Name>(meters, tariffs, names, Rule::Missing)?;
    test_names::<MeterRow, UnderBase, BaseRow, UnderBase>(meters, bases, &places, Rule::Base)?;
    test_bases(bases, meters, &numbers)?;
    Ok(places)
}

// Nothing where shifts keep the rules.
fn test_shifts(alloc: Global, shifts: &[Shift]) -> Result<(), OfficeFault>
    ensures passes { OnOk result (AreKept (shift_rules shifts.now)) }
    ensures found { IfErr result (Says (FindsFirst (shift_rules shifts.now))) }
{
    test_count(shifts)?;
    test_numbers(shifts)?;
    places_of::<Shift, Open>(alloc, shifts, Rule::TwoOpen)?;
    Ok(())
}

// Nothing where each sale is in one of so many shifts.
fn test_in_shifts(sales: &[Sale], shifts: usize) -> Result<(), Finding>
    ensures passes { OnOk result (Each (λ _ sale. IsInShift shifts sale) sales.now) }
    ensures found { IfErr result
        (IsFirst (each (listed_sales sales.now) rule.Missing (IsInShift shifts))) }
{
    'sales: for at in 0..sales.len() {
        let shift = sales[at].shift as usize;
        if shift < 1 || shifts < shift {
            return Err(found(&sales[at], Rule::Missing));
        }
    }
    Ok(())
}

// Nothing where sales, of so many shifts, keep the rules.
fn test_sales<'a>(
    alloc: Global,
    shifts: usize,
    bases: &'a [BaseRow],
    sales: &'a [Sale],
    places: &Places<'a>,
) -> Result<(), OfficeFault>
    requires { ArePlaces base_key places.now bases.now (length bases.now) }
    ensures passes { OnOk result (AreKept (sale_rules shifts bases.now sales.now)) }
    ensures found { IfErr result (Says (FindsFirst (sale_rules shifts bases.now sales.now))) }
{
    test_count(sales)?;
    test_numbers(sales)?;
    places_of::<Sale, Identifier>(alloc, sales, Rule::Twice)?;
    places_of::<Sale, OrderRef>(alloc, sales, Rule::Twice)?;
    test_in_shifts(sales, shifts)?;
    test_names::<Sale, UnderBase, BaseRow, UnderBase>(sales, bases, places, Rule::Base)?;
    Ok(())
}

/// Nothing where the rows keep the rules that tie them to one another; or the first row that is
/// found to break one.
///
/// It looks at each row a few times, and at each look at as many others as the logarithm of a list
/// has, but for the nine places of a tariff.
///
/// # Errors
/// `OfficeFault::Found` with the first row that breaks a rule, `OfficeFault::Memory` if there is no
/// memory.
pub(crate) fn test_rules(alloc: Global, rows: &OfficeRows) -> Result<(), OfficeFault>
    ensures passes { OnOk result (AreKept (tie_rules rows.now)) }
    ensures found { IfErr result (Says (FindsFirst (tie_rules rows.now))) }
{
    let (tariffs, bases) = (rows.tariffs.as_slice(), rows.bases.as_slice());
    let shifts = rows.shifts.as_slice();
    let names = test_tariffs(alloc, tariffs, &rows.steps)?;
    test_dated(alloc, tariffs, &rows.dated_steps, &names)?;
    let places = test_meters(alloc, tariffs, &rows.meters, bases, &names)?;
    test_shifts(alloc, shifts)?;
    test_sales(alloc, shifts.len(), bases, &rows.sales, &places)
}
