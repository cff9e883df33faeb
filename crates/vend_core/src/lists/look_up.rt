ghost use Rattle.std.specs.Prelude.{◌≡◌, ◌≤◌, ◌^◌, ◌&&◌, ◌==◌, All, IfOk, filter, find, is_none};
ghost use Rattle.std.specs.Prelude.{length, map, nat_le, sum_by, bytes_eq};
ghost use Rattle.std.specs.List.{list_any};
ghost use Rattle.std.specs.Option.{ForSome, option_copied};
ghost use Rattle.sts_fields.specs.Calendar.{month_at};
ghost use Rattle.sts_fields.specs.Day.{day_at};
ghost use Rattle.sts_fields.specs.Tid.{last_tid};
ghost use Rattle.sts_fields.specs.Base.{base_eq};
ghost use Rattle.office_rules.specs.Office.Lookup.{greatest_of, latest};
ghost use Rattle.office_rules.specs.Office.{greatest_count};
ghost use Rattle.vend_core.specs.Lists.PlainRows.{row_of, steps_from};

use office_rules::{Meter, MeterNo, Operator, Ref, Sale, Sales, Shift, TariffName};
use std::alloc::{AllocError, Global};
use sts_fields::{Base, Day, amount_law, day_of, month_of};
use tariff::Steps;

/// The steps under a name.
pub(crate) fn steps_under<'a>(
    rows: &'a [(TariffName, Steps)],
    name: &TariffName,
) -> Option<&'a Steps>
    ensures { option_copied result ≡ row_of rows.now name.now }
{
    for row in rows {
        if name.as_bytes() == row.0.as_bytes() {
            return Some(&row.1);
        }
    }
    None
}

/// Whether a row has this name and this first day.
pub(crate) fn is_from(row: &((TariffName, Day), Steps), name: &TariffName, day: u32) -> bool
    ensures { result ≡ (bytes_eq name.now row.now.0.0 && (day == row.now.0.1)) }
{
    name.as_bytes() == row.0.0.as_bytes() && day == row.0.1.days()
}

/// The further steps under a name and a first day, in days since 1993-01-01.
pub(crate) fn steps_from<'a>(
    rows: &'a [((TariffName, Day), Steps)],
    name: &TariffName,
    day: u32,
) -> Option<&'a Steps>
    ensures { option_copied result ≡ steps_from rows.now name.now day }
{
    for row in rows {
        if is_from(row, name, day) {
            return Some(&row.1);
        }
    }
    None
}

/// The further steps under a name that have begun last on a day. They are looked for day by day,
/// from this one back.
pub(crate) fn latest_steps<'a>(
    rows: &'a [((TariffName, Day), Steps)],
    name: &TariffName,
    day: Day,
) -> Option<&'a Steps>
    ensures { option_copied result ≡ latest (steps_from rows.now name.now) day }
{
    let mut first = day.days();
    while first > 0 {
        match steps_from(rows, name, first) {
            Some(steps) => return Some(steps),
            None => first -= 1,
        }
    }
    steps_from(rows, name, first)
}

/// Whether there is a sale to a meter, under any base.
pub(crate) fn has_sales(sales: &[Sale], meter: &MeterNo) -> bool
    ensures { result ≡ list_any (λ s. bytes_eq s.meter meter.now) sales.now }
{
    sales
        .iter()
        .any(|sale| sale.meter.as_bytes() == meter.as_bytes())
}

/// Whether a sale was made on a day or later, to whichever meter.
pub(crate) fn sold_since(sales: &[Sale], day: Day) -> bool
    ensures { result ≡ list_any (λ s. nat_le day (day_at s.moment)) sales.now }
{
    sales.iter().any(|sale| is_since(day, day_of(sale.moment)))
}

// Whether the other day is this one or later.
fn is_since(day: Day, other: Day) -> bool
    ensures { result ≡ nat_le day other }
{
    day.days() <= other.days()
}

/// The meter of a number.
pub(crate) fn meter_under(rows: &[(MeterNo, Meter)], number: &MeterNo) -> Option<Meter>
    ensures { result ≡ row_of rows.now number.now }
{
    for row in rows {
        if number.as_bytes() == row.0.as_bytes() {
            return Some(row.1);
        }
    }
    None
}

/// The open shift of an operator.
pub(crate) fn open_shift(shifts: &[Shift], operator: &Operator) -> Option<Shift>
    ensures { result ≡ find (λ s. bytes_eq s.operator operator.now && is_none s.closed) shifts.now }
{
    shifts.iter().copied().find(|shift| shift.operator.as_bytes() == operator.as_bytes()
        && shift.closed.is_none())
}

/// The shift of a number.
pub(crate) fn shift_numbered(shifts: &[Shift], number: u32) -> Option<Shift>
    ensures { result ≡ find (λ s. s.number == number) shifts.now }
{
    shifts.iter().copied().find(|shift| shift.number == number)
}

/// The sale of a number.
pub(crate) fn sale_numbered(sales: &[Sale], number: u32) -> Option<Sale>
    ensures { result ≡ find (λ s. s.number == number) sales.now }
{
    sales.iter().copied().find(|sale| sale.number == number)
}

/// The sale that an operator made under a ref.
pub(crate) fn sale_of_ref(sales: &[Sale], operator: &Operator, order_ref: &Ref) -> Option<Sale>
    ensures { result ≡ find
        (λ s. bytes_eq s.operator operator.now && bytes_eq s.order_ref order_ref.now) sales.now }
{
    sales.iter().copied().find(|sale| sale.operator.as_bytes() == operator.as_bytes()
        && sale.order_ref.as_bytes() == order_ref.as_bytes())
}

/// The sales of a shift.
pub(crate) fn sales_of_shift(
    alloc: Global,
    sales: &[Sale],
    number: u32,
) -> Result<Sales, AllocError>
    ensures { IfOk result (λ found. found ≡ filter (λ s. s.shift == number) sales.now) }
{
    Ok(Sales::of(list_of_shift(alloc, sales, number)?))
}

fn list_of_shift(alloc: Global, sales: &[Sale], number: u32) -> Result<Vec<Sale>, AllocError>
    ensures { IfOk result (λ found. found.items ≡ filter (λ s. s.shift == number) sales.now) }
{
    sales
        .iter()
        .filter(|sale| sale.shift == number)
        .copied()
        .collect(alloc)
}

// Whether a sale is one to a meter under a base.
fn is_under(sale: &Sale, meter: &MeterNo, base: Base) -> bool
    ensures { result ≡ (bytes_eq sale.now.meter meter.now && base_eq sale.now.base base) }
{
    sale.meter.as_bytes() == meter.as_bytes() && sale.base.year() == base.year()
}

/// The greatest identifier sold to a meter under a base.
pub(crate) fn last_tid(sales: &[Sale], meter: &MeterNo, base: Base) -> Option<u32>
    requires { All (λ s. s.tid ≤ last_tid) sales.now }
    ensures value { result
        ≡ greatest_of (map (λ s. s.tid)
        (filter (λ s. bytes_eq s.meter meter.now && base_eq s.base base) sales.now)) }
    ensures range { ForSome result (λ tid. tid ≤ last_tid) }
{
    let mut last: Option<u32> = None;
    for sale in sales {
        if is_under(sale, meter, base) {
            last = Some(last.unwrap_or(0).max(sale.tid));
        }
    }
    last
}

// Whether a sale is one to a meter in a month.
fn is_in_month(sale: &Sale, meter: &MeterNo, month: u32) -> bool
    ensures { result ≡ (bytes_eq sale.now.meter meter.now && (month_at sale.now.moment == month)) }
{
    sale.meter.as_bytes() == meter.as_bytes() && month_of(sale.moment) == Ok(month)
}

/// The tenths sold to a meter in a month.
pub(crate) fn prior(sales: &[Sale], meter: &MeterNo, month: u32) -> u64
    requires { length sales.now ≤ greatest_count }
    ensures value { result
        ≡ sum_by (λ s. s.tenths)
        (filter (λ s. bytes_eq s.meter meter.now && (month_at s.moment == month)) sales.now) }
    ensures range { result ≤ 10 ^ 17 }
{
    amount_law();
    let mut total = 0;
    for sale in sales {
        if is_in_month(sale, meter, month) {
            total += u64::from(sale.tenths.tenths());
        }
    }
    total
}
