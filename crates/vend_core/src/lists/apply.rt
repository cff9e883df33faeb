ghost use Rattle.std.specs.Prelude.{◌≡◌, ◌==◌, ◌≤◌, ◌<◌, IfOk, IsOk, IsSome, ℕ, true};
ghost use Rattle.std.specs.Prelude.{if◌then◌else◌, length, map, [], ◌∷◌, ◌++◌};
ghost use Rattle.sts_fields.specs.Tid.{last_tid};
ghost use Rattle.office_rules.specs.Decision.Edits.{RowsFit, set_meter, with_base};
ghost use Rattle.office_rules.specs.Decision.Fold.{applied, closed_at};
ghost use Rattle.vend_core.specs.Lists.{Fits, AppliesEdit, recorded, sets_only};
ghost use Rattle.office_rules.specs.Office.{greatest_count};
ghost use Rattle.vend_core.specs.Lists.PlainRows.{base_row, dated_steps_of, meters_of, row_put};
ghost use Rattle.vend_core.specs.Lists.PlainRows.{rows_without, tariffs_of};

use crate::lists::look_up;
use crate::lists::records::Records;
use office_rules::{Edit, Meter, MeterNo, Row, Rows, Sale, Shift, TariffName};
use std::alloc::{AllocError, Global};
use sts_fields::{Base, Day, Moment};
use tariff::Steps;

/// Makes an edit. Want of memory leaves the records as they were.
pub(crate) fn apply(alloc: Global, records: &mut Records, edit: Edit) -> Result<(), AllocError>
    requires { Fits edit (recorded records.old) }
    ensures exact { sets_only edit ≡ true → IsOk result }
    ensures made { AppliesEdit edit (recorded records.old) (recorded records.new) result }
{
    match edit {
        Edit::AddTariff(name, steps) => add_tariff(records, name, steps),
        Edit::AddSteps(name, day, steps) => add_steps(records, name, day, steps),
        Edit::WithdrawSteps(name, day) => {
            withdraw_steps(records, name, day);
            Ok(())
        }
        Edit::AddMeter(number, meter) => add_meter(records, number, meter),
        Edit::AddRows(rows) => add_rows(alloc, records, rows),
        Edit::SetTariff(number, name) => {
            set_tariff(records, number, name);
            Ok(())
        }
        Edit::MoveBase(number, base) => move_base(records, number, base),
        Edit::SetKey(number, key) => {
            set_key(records, number, key);
            Ok(())
        }
        Edit::OpenShift(shift) => open_shift(records, shift),
        Edit::CloseShift(number, moment) => {
            close_shift(records, number, moment);
            Ok(())
        }
        Edit::AddSale(sale) => add_sale(records, sale),
    }
}

fn add_tariff(records: &mut Records, name: TariffName, steps: Steps) -> Result<(), AllocError>
    ensures { AppliesEdit (Edit.AddTariff name steps)
        (recorded records.old) (recorded records.new) result }
{
    records.tariffs.insert(0, (name, steps))?;
    Ok(())
}

fn add_steps(
    records: &mut Records,
    name: TariffName,
    day: Day,
    steps: Steps,
) -> Result<(), AllocError>
    ensures { AppliesEdit (Edit.AddSteps name day steps)
        (recorded records.old) (recorded records.new) result }
{
    records.dated_steps.insert(0, ((name, day), steps))?;
    Ok(())
}

fn withdraw_steps(records: &mut Records, name: TariffName, day: Day)
    ensures { recorded records.new ≡ applied (Edit.WithdrawSteps name day) (recorded records.old) }
{
    take_away(&mut records.dated_steps, name, day);
}

fn take_away(rows: &mut Vec<((TariffName, Day), Steps)>, name: TariffName, day: Day)
    ensures { rows.new.items ≡ rows_without name day rows.old.items }
{
    rows.retain(|row| !look_up::is_from(row, &name, day.days()));
}

// Room is made first, so that both rows are added or none.
fn add_meter(records: &mut Records, number: MeterNo, meter: Meter) -> Result<(), AllocError>
    requires { IsSome ((recorded records.old).tariffs meter.tariff) }
    ensures { AppliesEdit (Edit.AddMeter number meter)
        (recorded records.old) (recorded records.new) result }
{
    let base = meter.base;
    records.bases.reserve(1)?;
    records.meters.insert(0, (number, meter))?;
    records.bases.insert(0, (number, base))?;
    Ok(())
}

// Room is made first, so that all the rows are added or none.
fn add_rows(alloc: Global, records: &mut Records, rows: Rows) -> Result<(), AllocError>
    requires { RowsFit rows (recorded records.old) }
    ensures { AppliesEdit (Edit.AddRows rows) (recorded records.old) (recorded records.new) result }
{
    let (mut tariffs, mut dated_steps, mut meters) = last_first(alloc, rows)?;
    let mut bases = bases_of(alloc, &meters)?;
    tariffs.reserve(records.tariffs.len())?;
    dated_steps.reserve(records.dated_steps.len())?;
    meters.reserve(records.meters.len())?;
    bases.reserve(records.bases.len())?;
    tariffs.append(&mut records.tariffs)?;
    dated_steps.append(&mut records.dated_steps)?;
    meters.append(&mut records.meters)?;
    bases.append(&mut records.bases)?;
    records.tariffs = tariffs;
    records.dated_steps = dated_steps;
    records.meters = meters;
    records.bases = bases;
    Ok(())
}

type RowsByKind = (
    Vec<(TariffName, Steps)>,
    Vec<((TariffName, Day), Steps)>,
    Vec<(MeterNo, Meter)>,
);

// The tariffs, the further steps and the meters among rows, the last one in front.
fn last_first(alloc: Global, rows: Rows) -> Result<RowsByKind, AllocError>
    ensures { IfOk result
        (λ all. (all.0.items ≡ tariffs_of rows) × (all.1.items ≡ dated_steps_of rows)
        × (all.2.items ≡ meters_of rows)) }
{
    let mut rest = rows.into_vec();
    let mut tariffs = Vec::new(alloc);
    let mut dated_steps = Vec::new(alloc);
    let mut meters = Vec::new(alloc);
    while let Some(row) = rest.pop() {
        match row {
            Row::Tariff(name, steps) => tariffs.push((name, steps))?,
            Row::Steps(name, day, steps) => dated_steps.push(((name, day), steps))?,
            Row::Meter(number, meter) => meters.push((number, meter))?,
        }
    }
    Ok((tariffs, dated_steps, meters))
}

// The base of each meter.
fn bases_of(alloc: Global, meters: &[(MeterNo, Meter)]) -> Result<Vec<(MeterNo, Base)>, AllocError>
    ensures { IfOk result (λ bases. bases.items ≡ map base_row meters.now) }
{
    meters.iter().map(|row| (row.0, row.1.base)).collect(alloc)
}

fn set_tariff(records: &mut Records, number: MeterNo, name: TariffName)
    requires { IsSome ((recorded records.old).tariffs name) }
    ensures { recorded records.new ≡ applied (Edit.SetTariff number name) (recorded records.old) }
{
    match look_up::meter_under(&records.meters, &number) {
        Some(meter) => {
            let set = Meter {
                tariff: name,
                ..meter
            };
            put_meter(&mut records.meters, number, set);
        }
        None => {}
    }
}

fn move_base(records: &mut Records, number: MeterNo, base: Base) -> Result<(), AllocError>
    ensures { AppliesEdit (Edit.MoveBase number base)
        (recorded records.old) (recorded records.new) result }
{
    records.bases.insert(0, (number, base))?;
    set_base(records, number, base);
    Ok(())
}

// Sets the present base of a meter.
fn set_base(records: &mut Records, number: MeterNo, base: Base)
    ensures { recorded records.new ≡ record (recorded records.old) {
      meters = set_meter number (with_base base) (recorded records.old).meters;
    } }
{
    match look_up::meter_under(&records.meters, &number) {
        Some(meter) => put_meter(&mut records.meters, number, Meter { base, ..meter }),
        None => {}
    }
}

fn set_key(records: &mut Records, number: MeterNo, key: u64)
    ensures { recorded records.new ≡ applied (Edit.SetKey number key) (recorded records.old) }
{
    match look_up::meter_under(&records.meters, &number) {
        Some(meter) => put_meter(&mut records.meters, number, Meter { key, ..meter }),
        None => {}
    }
}

fn put_meter(meters: &mut Vec<(MeterNo, Meter)>, number: MeterNo, meter: Meter)
    ensures { meters.new.items ≡ map (row_put number meter) meters.old.items }
{
    put_meter_in(meters, number, meter);
}

fn put_meter_in(meters: &mut [(MeterNo, Meter)], number: MeterNo, meter: Meter)
    ensures { meters.new ≡ map (row_put number meter) meters.old }
{
    for row in meters.iter_mut() {
        *row = row_put(row, number, &meter);
    }
}

// The row with this meter, where it has this number.
fn row_put(row: &(MeterNo, Meter), number: MeterNo, meter: &Meter) -> (MeterNo, Meter)
    ensures { result ≡ row_put number meter.now row.now }
{
    if row.0.as_bytes() == number.as_bytes() {
        (row.0, *meter)
    } else {
        *row
    }
}

fn open_shift(records: &mut Records, shift: Shift) -> Result<(), AllocError>
    ensures { AppliesEdit (Edit.OpenShift shift)
        (recorded records.old) (recorded records.new) result }
{
    records.shifts.extend_from_slice(&[shift])
}

fn close_shift(records: &mut Records, number: u32, moment: Moment)
    ensures { recorded records.new
        ≡ applied (Edit.CloseShift number moment) (recorded records.old) }
{
    close_shift_of(&mut records.shifts, number, moment);
}

fn close_shift_of(shifts: &mut [Shift], number: u32, moment: Moment)
    ensures { shifts.new
        ≡ map (λ s. if s.number == number then closed_at moment s else s) shifts.old }
{
    for shift in shifts.iter_mut() {
        *shift = closed_if(shift, number, moment);
    }
}

// The shift closed at this moment, where it has this number.
fn closed_if(shift: &Shift, number: u32, moment: Moment) -> Shift
    ensures { result ≡ (if shift.now.number == number then closed_at moment shift.now else
        shift.now) }
{
    if shift.number == number {
        Shift {
            closed: Some(moment),
            ..*shift
        }
    } else {
        *shift
    }
}

fn add_sale(records: &mut Records, sale: Sale) -> Result<(), AllocError>
    requires tid { sale.tid ≤ last_tid }
    requires room { length (recorded records.old).sales < greatest_count }
    ensures { AppliesEdit (Edit.AddSale sale) (recorded records.old) (recorded records.new) result }
{
    records.sales.push(sale)?;
    Ok(())
}
