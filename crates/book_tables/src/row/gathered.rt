//! The running totals of sales in memory, each under its key.

ghost use Rattle.std.specs.Prelude.{◌≡◌, ◌+◌, ◌++◌, ◌<◌, ◌≤◌, ◌^◌, ◌==◌, List, [], ◌∷◌, ℕ, Option};
ghost use Rattle.std.specs.Prelude.{OnOk, length, map, max, unwrap_or};
ghost use Rattle.std.specs.Ordering.{nat_cmp};
ghost use Rattle.sts_fields.specs.Calendar.{month_at};
ghost use Rattle.sts_fields.specs.declared.base.Base.{Base};
ghost use Rattle.office_rules.specs.Office.Lookup.{greatest_of};
ghost use Rattle.office_rules.specs.declared.office.sale.Sale.{Sale};
ghost use Rattle.book_tables.specs.Stands.{sales_in_month, sales_in_shift, sales_under, tenths_of};
ghost use Rattle.book_tables.specs.Stands.{totals_of};
ghost use Rattle.book_tables.specs.row.Gathered.{HoldsAt, IsGathered, IsInWords, base_place};
ghost use Rattle.book_tables.specs.row.Gathered.{key_cmp, own_place};
ghost use Rattle.book_tables.specs.writing.Writing.{is_in_month, is_under, no_totals, one_more};
ghost use Rattle.book_tables.specs.writing.Writing.{put_under};
ghost use Rattle.book_tables.specs.declared.row.totals.Totals.{Totals};

use crate::row::totals::Totals;
use office_rules::{MeterNo, Sale};
use std::alloc::{AllocError, Global};
use std::collections::BTreeMap;
use sts_fields::{Base, month_of};

/// The digits of a meter's number, and a year or a month.
pub(crate) type Key = ([u8; 11], u32);

/// The last identifier of each meter under a base.
pub(crate) type LastIds = BTreeMap<Key, ((MeterNo, Base), u32)>;

/// The tenths of a kWh of each meter in a month.
pub(crate) type MonthTenths = BTreeMap<Key, ((MeterNo, u32), u64)>;

/// The totals of each shift.
pub(crate) type ShiftTotals = BTreeMap<u32, (u32, Totals)>;

/// The running totals of some sales. Contracts see of which by `IsGathered`.
#[derive(Drop)]
pub struct Gathered {
    pub(crate) last_ids: LastIds,
    pub(crate) month_tenths: MonthTenths,
    pub(crate) shift_totals: ShiftTotals,
}

fn key_of(meter: &MeterNo, second: u32) -> Key
    ensures { result ≡ (meter.now, second) }
{
    let mut digits = [0; 11];
    digits.copy_from_slice(meter.as_bytes());
    (digits, second)
}

// The greater of two identifiers, of which the first may be missing.
fn later_tid(greatest: Option<u32>, tid: u32) -> u32
    ensures { result ≡ max (unwrap_or greatest 0) tid }
{
    match greatest {
        Some(other) if tid < other => other,
        _ => tid,
    }
}

/// The month of a sale's moment.
pub(crate) fn month_of_sale(sale: &Sale) -> u32
    ensures { result ≡ month_at sale.now.moment }
{
    month_of(sale.moment).unwrap()
}

// A sum with some tenths more, where a number of 64 bits can hold it.
fn more_tenths(before: Option<u64>, tenths: u32) -> u64
    ensures { unwrap_or before 0 + tenths < 2 ^ 64 → result ≡ unwrap_or before 0 + tenths }
{
    before.unwrap_or(0).saturating_add(u64::from(tenths))
}

// The totals with a sale more, where a number of 64 bits can hold each.
fn more_totals(before: Option<Totals>, tenths: u32, price: u32) -> Totals
    ensures { IsInWords (one_more tenths price (unwrap_or before no_totals))
        → result ≡ one_more tenths price (unwrap_or before no_totals) }
{
    let before = before.unwrap_or(Totals {
        sales: 0,
        tenths: 0,
        cash: 0,
    });
    Totals {
        sales: before.sales.saturating_add(1),
        tenths: before.tenths.saturating_add(u64::from(tenths)),
        cash: before.cash.saturating_add(u64::from(price)),
    }
}

// What is known of two numbers of 32 bits.
fn words_law(tenths: u32, price: u32)
    ensures { (tenths < 2 ^ 32) × (price < 2 ^ 32) }
{}

// The last identifier of a meter under a base.
fn id_under(ids: &LastIds, meter: &MeterNo, base: Base) -> Option<u32>
    ensures { (has : (List ℕ × Base) → Option ℕ) → HoldsAt key_cmp base_place ids.now has
        → result ≡ has (meter.now, base) }
{
    match ids.get(&key_of(meter, base.year())) {
        Some(row) => Some(row.1),
        None => None,
    }
}

// The tenths of a meter in a month.
fn tenths_under(months: &MonthTenths, meter: &MeterNo, month: u32) -> Option<u64>
    ensures { (has : (List ℕ × ℕ) → Option ℕ) → HoldsAt key_cmp own_place months.now has
        → result ≡ has (meter.now, month) }
{
    match months.get(&key_of(meter, month)) {
        Some(row) => Some(row.1),
        None => None,
    }
}

// The totals of a shift.
fn totals_under(shifts: &ShiftTotals, shift: u32) -> Option<Totals>
    ensures { (has : ℕ → Option Totals) → HoldsAt nat_cmp own_place shifts.now has
        → result ≡ has shift }
{
    match shifts.get(&shift) {
        Some(row) => Some(row.1),
        None => None,
    }
}

// Adds an identifier to those of a meter under a base.
fn add_id(ids: &mut LastIds, meter: &MeterNo, base: Base, tid: u32) -> Result<(), AllocError>
    ensures { OnOk result ((has : (List ℕ × Base) → Option ℕ)
        → HoldsAt key_cmp base_place ids.old has
        → HoldsAt key_cmp base_place ids.new (put_under (is_under (meter.now, base))
        (max (unwrap_or (has (meter.now, base)) 0) tid) has)) }
{
    let last = later_tid(id_under(ids, meter, base), tid);
    ids.insert(key_of(meter, base.year()), ((*meter, base), last))?;
    Ok(())
}

// Adds tenths to those of a meter in a month.
fn add_tenths(
    months: &mut MonthTenths,
    meter: &MeterNo,
    month: u32,
    tenths: u32,
) -> Result<(), AllocError>
    ensures { OnOk result ((has : (List ℕ × ℕ) → Option ℕ)
        → HoldsAt key_cmp own_place months.old has
        → unwrap_or (has (meter.now, month)) 0 + tenths < 2 ^ 64
        → HoldsAt key_cmp own_place months.new (put_under (is_in_month (meter.now, month))
        (unwrap_or (has (meter.now, month)) 0 + tenths) has)) }
{
    let sum = more_tenths(tenths_under(months, meter, month), tenths);
    months.insert(key_of(meter, month), ((*meter, month), sum))?;
    Ok(())
}

// Adds a sale of these tenths at this price to the totals of a shift.
fn add_to_shift(
    shifts: &mut ShiftTotals,
    shift: u32,
    tenths: u32,
    price: u32,
) -> Result<(), AllocError>
    ensures { OnOk result ((has : ℕ → Option Totals) → HoldsAt nat_cmp own_place shifts.old has
        → IsInWords (one_more tenths price (unwrap_or (has shift) no_totals))
        → HoldsAt nat_cmp own_place shifts.new (put_under (λ n. n == shift)
        (one_more tenths price (unwrap_or (has shift) no_totals)) has)) }
{
    let totals = more_totals(totals_under(shifts, shift), tenths, price);
    shifts.insert(shift, (shift, totals))?;
    Ok(())
}

impl Gathered {
    /// Those of no sale.
    pub fn new(alloc: Global) -> Gathered
        ensures { IsGathered [] result }
    {
        Gathered {
            last_ids: BTreeMap::new(alloc),
            month_tenths: BTreeMap::new(alloc),
            shift_totals: BTreeMap::new(alloc),
        }
    }

    /// Adds a sale to them. After an error they hold a part of it and are of no use.
    ///
    /// # Errors
    /// `AllocError` if there is no memory.
    pub fn add(&mut self, sale: &Sale) -> Result<(), AllocError>
        ensures { OnOk result ((sales : List Sale) → length sales < 2 ^ 32
            → IsGathered sales self.old → IsGathered (sales ++ sale.now ∷ []) self.new) }
    {
        let tenths = sale.tenths.tenths();
        words_law(tenths, sale.price);
        add_id(&mut self.last_ids, &sale.meter, sale.base, sale.tid)?;
        add_tenths(
            &mut self.month_tenths,
            &sale.meter,
            month_of_sale(sale),
            tenths,
        )?;
        add_to_shift(&mut self.shift_totals, sale.shift, tenths, sale.price)?;
        Ok(())
    }

    /// Adds each of these sales, in order, as `add` does: its identifier to the last ones, its
    /// tenths of a kWh to its meter's month, and its tenths and price in cents to its shift. After
    /// an error they hold a part of them and are of no use.
    ///
    /// # Errors
    /// `AllocError` if there is no memory.
    pub fn add_all(&mut self, sales: &[Sale]) -> Result<(), AllocError>
        ensures { OnOk result ((before : List Sale) → length before + length sales.now ≤ 2 ^ 32
            → IsGathered before self.old → IsGathered (before ++ sales.now) self.new) }
    {
        'all: for sale in sales {
            self.add(sale)?;
        }
        Ok(())
    }

    /// The last identifier of a meter under a base, if any.
    pub fn last_id(&self, meter: &MeterNo, base: Base) -> Option<u32>
        ensures { (sales : List Sale) → IsGathered sales self.now → result
            ≡ greatest_of (map (λ s. s.tid) (sales_under sales (meter.now, base))) }
    {
        id_under(&self.last_ids, meter, base)
    }

    /// The tenths of a kWh of a meter in a month, where there is a sale.
    pub fn tenths(&self, meter: &MeterNo, month: u32) -> Option<u64>
        ensures { (sales : List Sale) → IsGathered sales self.now
            → result ≡ tenths_of (sales_in_month sales (meter.now, month)) }
    {
        tenths_under(&self.month_tenths, meter, month)
    }

    /// The totals of a shift, where there is a sale.
    pub fn totals(&self, shift: u32) -> Option<Totals>
        ensures { (sales : List Sale) → IsGathered sales self.now
            → result ≡ totals_of (sales_in_shift sales shift) }
    {
        totals_under(&self.shift_totals, shift)
    }
}
