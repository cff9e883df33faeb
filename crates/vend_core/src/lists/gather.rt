ghost use Rattle.std.specs.Prelude.{◌≡◌, ℕ, IfOk, IsNone, IsSome, List, OnErr, Err, Some, is_some};
ghost use Rattle.std.specs.Prelude.{true};
ghost use Rattle.std.specs.Option.{option_copied};
ghost use Rattle.office_rules.specs.Decision.{account_of, row_decision};
ghost use Rattle.office_rules.specs.Decision.Facts.{AreDatedFacts, AreFacts, AreKeyFacts};
ghost use Rattle.office_rules.specs.Decision.Facts.{AreMeterFacts, AreNewSaleFacts};
ghost use Rattle.office_rules.specs.Decision.Facts.{AreOpeningFacts, AreRowsFacts, AreSaleFacts};
ghost use Rattle.office_rules.specs.Decision.Facts.{AreSettingFacts, AreWithdrawalFacts};
ghost use Rattle.office_rules.specs.Decision.Facts.{report_of, row_facts};
ghost use Rattle.vend_core.specs.Lists.{CopiesList, recorded};
ghost use Rattle.office_rules.specs.Office.Lookup.{open_shift, sale_of_ref, steps_on};
ghost use Rattle.office_rules.specs.Office.{Office};
ghost use Rattle.office_rules.specs.declared.decision.row_facts.RowFacts.{RowFacts};

use crate::lists::look_up;
use crate::lists::records::Records;
use office_decisions::{same_meter, same_steps};
use office_rules::{
    Facts, ImportFacts, Meter, MeterAccount, MeterNo, Operator, Order, Refusal, Request, Row,
    RowFacts, Rows, Stamped, TariffName,
};
use std::alloc::{AllocError, Global};
use sts_fields::{Day, Moment, day_of, month_of};
use tariff::Steps;

/// What the tests of a request look at in these records.
pub(crate) fn facts(alloc: Global, records: &Records, at: &Stamped) -> Result<Facts, AllocError>
    ensures facts { IfOk result (AreFacts (recorded records.now) at.now) }
    ensures memory { OnErr result
        (CopiesList (recorded records.now) at.now.moment at.now.request) }
{
    match &at.request {
        Request::AddTariff(name, _) => tariff_facts(records, name),
        Request::AddSteps(name, day, _) => dated_facts(records, name, *day),
        Request::WithdrawSteps(name, day) => withdrawal_facts(records, name, *day),
        Request::AddMeter(number, meter) => Ok(meter_facts(records, number, meter)),
        Request::Import(rows) => import_facts(alloc, records, rows),
        Request::SetTariff(number, name) => Ok(setting_facts(records, number, name)),
        Request::MoveBase(number, _) => Ok(Facts {
            meter: look_up::meter_under(&records.meters, number),
            ..Facts::none()
        }),
        Request::SetKey(number, _) => Ok(key_facts(records, number)),
        Request::OpenShift(operator) => Ok(opening_facts(records, operator)),
        Request::CloseShift(operator) => Ok(Facts {
            open_shift: look_up::open_shift(&records.shifts, operator),
            ..Facts::none()
        }),
        Request::Sell(order) => sale_facts(records, at.moment, order),
        Request::Reprint(number) => Ok(Facts {
            sale: look_up::sale_numbered(&records.sales, *number),
            ..Facts::none()
        }),
        Request::ShiftReport(number) => report_facts(alloc, records, *number),
    }
}

fn tariff_facts(records: &Records, name: &TariffName) -> Result<Facts, AllocError>
    ensures facts { IfOk result (λ f. f.tariff ≡ (recorded records.now).tariffs name.now) }
    ensures memory { OnErr result (IsSome ((recorded records.now).tariffs name.now)) }
{
    Ok(Facts {
        tariff: owned(look_up::steps_under(&records.tariffs, name))?,
        ..Facts::none()
    })
}

// Steps of one's own.
fn owned(steps: Option<&Steps>) -> Result<Option<Steps>, AllocError>
    ensures own { IfOk result (λ own. own ≡ option_copied steps.entry) }
    ensures memory { OnErr result (IsSome (option_copied steps.entry)) }
{
    match steps {
        Some(steps) => Ok(Some(steps.clone()?)),
        None => Ok(None),
    }
}

fn has_tariff(records: &Records, name: &TariffName) -> bool
    ensures { result ≡ is_some ((recorded records.now).tariffs name.now) }
{
    look_up::steps_under(&records.tariffs, name).is_some()
}

fn dated_facts(records: &Records, name: &TariffName, day: Day) -> Result<Facts, AllocError>
    ensures facts { IfOk result (AreDatedFacts (recorded records.now) name.now day) }
    ensures has_tariff { OnErr result (IsSome ((recorded records.now).tariffs name.now)) }
    ensures has_steps { OnErr result (IsSome ((recorded records.now).dated_steps name.now day)) }
{
    if !has_tariff(records, name) {
        return Ok(Facts::none());
    }
    Ok(Facts {
        has_tariff: true,
        dated_steps: owned(look_up::steps_from(&records.dated_steps, name, day.days()))?,
        ..Facts::none()
    })
}

fn withdrawal_facts(records: &Records, name: &TariffName, day: Day) -> Result<Facts, AllocError>
    ensures facts { IfOk result (AreWithdrawalFacts (recorded records.now) name.now day) }
    ensures has_tariff { OnErr result (IsSome ((recorded records.now).tariffs name.now)) }
    ensures has_steps { OnErr result (IsSome ((recorded records.now).dated_steps name.now day)) }
{
    let facts = dated_facts(records, name, day)?;
    Ok(Facts {
        sold_since: look_up::sold_since(&records.sales, day),
        ..facts
    })
}

fn meter_facts(records: &Records, number: &MeterNo, meter: &Meter) -> Facts
    ensures { AreMeterFacts (recorded records.now) number.now meter.now result }
{
    let there = look_up::meter_under(&records.meters, number);
    Facts {
        meter: there,
        has_tariff: there.is_none() && has_tariff(records, &meter.tariff),
        ..Facts::none()
    }
}

fn setting_facts(records: &Records, number: &MeterNo, name: &TariffName) -> Facts
    ensures { AreSettingFacts (recorded records.now) number.now name.now result }
{
    let meter = look_up::meter_under(&records.meters, number);
    Facts {
        meter,
        has_tariff: meter.is_some() && has_tariff(records, name),
        ..Facts::none()
    }
}

fn key_facts(records: &Records, number: &MeterNo) -> Facts
    ensures { (key : ℕ) → AreKeyFacts (recorded records.now) number.now key result }
{
    Facts {
        meter: look_up::meter_under(&records.meters, number),
        has_sales: look_up::has_sales(&records.sales, number),
        ..Facts::none()
    }
}

// What is under the names of the rows, up to the first row that differs from it.
fn import_facts(alloc: Global, records: &Records, rows: &Rows) -> Result<Facts, AllocError>
    ensures { IfOk result (λ f. (fs : List RowFacts) × (f.rows ≡ Some fs)
        × ((today : ℕ) → AreRowsFacts (recorded records.now) today rows.now fs)) }
{
    let found = found_of(alloc, records, rows.as_slice())?;
    Ok(Facts {
        rows: Some(ImportFacts::of(found)),
        ..Facts::none()
    })
}

fn found_of(alloc: Global, records: &Records, rows: &[Row]) -> Result<Vec<RowFacts>, AllocError>
    ensures { (today : ℕ)
        → IfOk result (λ found. AreRowsFacts (recorded records.now) today rows.now found.items) }
{
    let mut found = Vec::new(alloc);
    for row in rows {
        let facts = row_facts(records, row)?;
        let differs = differs(row, &facts);
        found.push(facts)?;
        if differs {
            return Ok(found);
        }
    }
    Ok(found)
}

fn row_facts(records: &Records, row: &Row) -> Result<RowFacts, AllocError>
    ensures { IfOk result (λ found. found ≡ row_facts (recorded records.now) row.now) }
{
    match row {
        Row::Tariff(name, _) => Ok(RowFacts::Tariff(owned(look_up::steps_under(
            &records.tariffs,
            name,
        ))?)),
        Row::Steps(name, day, _) => Ok(RowFacts::Steps(
            has_tariff(records, name),
            owned(look_up::steps_from(&records.dated_steps, name, day.days()))?,
        )),
        Row::Meter(number, meter) => match look_up::meter_under(&records.meters, number) {
            Some(there) => Ok(RowFacts::Meter(there)),
            None => Ok(RowFacts::NoMeter(has_tariff(records, &meter.tariff))),
        },
    }
}

// Whether something else is there under the row's name.
fn differs(row: &Row, found: &RowFacts) -> bool
    ensures { (o : Office) (today : ℕ) → found.now ≡ row_facts o row.now
        → result ≡ true → row_decision o today row.now ≡ Err Refusal.Differs }
{
    match (row, found) {
        (Row::Tariff(_, steps), RowFacts::Tariff(Some(there))) => !same_steps(there, steps),
        (Row::Steps(_, _, steps), RowFacts::Steps(true, Some(there))) => !same_steps(there, steps),
        (Row::Meter(_, meter), RowFacts::Meter(there)) => !same_meter(there, meter),
        _ => false,
    }
}

fn opening_facts(records: &Records, operator: &Operator) -> Facts
    ensures { AreOpeningFacts (recorded records.now) operator.now result }
{
    Facts {
        open_shift: look_up::open_shift(&records.shifts, operator),
        shift_count: records.shifts.len() as u64,
        ..Facts::none()
    }
}

fn sale_facts(records: &Records, moment: Moment, order: &Order) -> Result<Facts, AllocError>
    ensures facts { IfOk result (AreSaleFacts (recorded records.now) moment order.now) }
    ensures new { OnErr result
        (IsNone (sale_of_ref (recorded records.now) order.now.operator order.now.order_ref)) }
    ensures shift { OnErr result
        (IsSome (open_shift (recorded records.now) order.now.operator)) }
    ensures meter { OnErr result
        (IsSome (account_of (recorded records.now) order.now.meter moment)) }
{
    let first_sale = look_up::sale_of_ref(&records.sales, &order.operator, &order.order_ref);
    if first_sale.is_some() {
        return Ok(Facts {
            first_sale,
            ..Facts::none()
        });
    }
    new_sale_facts(records, moment, order)
}

fn new_sale_facts(records: &Records, moment: Moment, order: &Order) -> Result<Facts, AllocError>
    ensures none { IfOk result (λ f. IsNone f.first_sale) }
    ensures facts { IfOk result (AreNewSaleFacts (recorded records.now) moment order.now) }
    ensures shift { OnErr result
        (IsSome (open_shift (recorded records.now) order.now.operator)) }
    ensures meter { OnErr result
        (IsSome (account_of (recorded records.now) order.now.meter moment)) }
{
    let open_shift = look_up::open_shift(&records.shifts, &order.operator);
    if open_shift.is_none() {
        return Ok(Facts::none());
    }
    Ok(Facts {
        open_shift,
        account: account(records, &order.meter, moment)?,
        sale_count: records.sales.len() as u64,
        ..Facts::none()
    })
}

// What a sale at a moment looks at of the meter of this number.
fn account(
    records: &Records,
    number: &MeterNo,
    moment: Moment,
) -> Result<Option<MeterAccount>, AllocError>
    ensures found { IfOk result
        (λ found. found ≡ account_of (recorded records.now) number.now moment) }
    ensures memory { OnErr result
        (IsSome (account_of (recorded records.now) number.now moment)) }
{
    let Some(meter) = look_up::meter_under(&records.meters, number) else {
        return Ok(None);
    };
    let steps = steps_on(records, number, &meter, day_of(moment)).clone()?;
    let month = month_of(moment).unwrap();
    Ok(Some(MeterAccount {
        meter,
        steps,
        last: look_up::last_tid(&records.sales, number, meter.base),
        prior: look_up::prior(&records.sales, number, month),
    }))
}

// The first steps of a meter's tariff.
fn tariff_of<'a>(records: &'a Records, number: &MeterNo, meter: &Meter) -> &'a Steps
    requires { (recorded records.now).meters number.now ≡ Some meter.now }
    ensures { Some result.now ≡ (recorded records.now).tariffs meter.now.tariff }
{
    look_up::steps_under(&records.tariffs, &meter.tariff).unwrap()
}

// The steps of a meter's tariff on a day.
fn steps_on<'a>(records: &'a Records, number: &MeterNo, meter: &Meter, day: Day) -> &'a Steps
    requires { (recorded records.now).meters number.now ≡ Some meter.now }
    ensures { result.now ≡ steps_on (recorded records.now) meter.now.tariff day }
{
    match look_up::latest_steps(&records.dated_steps, &meter.tariff, day) {
        Some(steps) => steps,
        None => tariff_of(records, number, meter),
    }
}

fn report_facts(alloc: Global, records: &Records, number: u32) -> Result<Facts, AllocError>
    ensures facts { IfOk result (λ f. f.report ≡ report_of (recorded records.now) number) }
    ensures memory { OnErr result (IsSome (report_of (recorded records.now) number)) }
{
    let report = match look_up::shift_numbered(&records.shifts, number) {
        Some(shift) => Some((
            shift,
            look_up::sales_of_shift(alloc, &records.sales, number)?,
        )),
        None => None,
    };
    Ok(Facts {
        report,
        ..Facts::none()
    })
}
