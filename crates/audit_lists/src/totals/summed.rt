//! What the rows of the running totals are told apart by, and what they tell.

ghost use Rattle.std.specs.Prelude.{◌≡◌};
ghost use Rattle.sts_fields.specs.Calendar.{month_at};
ghost use Rattle.audit_lists.specs.totals.Rules.{last_id_asked, last_id_key, last_id_of};
ghost use Rattle.audit_lists.specs.totals.Rules.{month_asked, month_key, month_tenths_of};
ghost use Rattle.audit_lists.specs.totals.Rules.{sale_month_key, sale_shift_key, shift_asked};
ghost use Rattle.audit_lists.specs.totals.Rules.{shift_key, shift_totals_of};

use crate::key::{KeyOf, LentKey, UnderBase};
use audit_rows::{LastId, MonthTenths, Named, RowKey, ShiftTotals};
use book_tables::{Gathered, Totals};
use office_rules::Sale;
use sts_fields::month_of;

/// A row of a table of running totals.
pub(crate) trait Summed: Named {
    ghost use Rattle.std.specs.Prelude.{◌≡◌, ◌↔◌, List, Option, Some, is_some, true};
    ghost use Rattle.office_rules.specs.declared.office.sale.Sale.{Sale};
    ghost use Rattle.book_tables.specs.row.Gathered.{IsGathered};
    ghost use Rattle.audit_rows.specs.declared.finding.RowKey.{RowKey};

    /// The key of a row, and the one of a sale.
    type Key: KeyOf<Self>;

    type SaleKey: KeyOf<Sale>;

    /// What a row tells.
    type Told;

    /// The row that a sale asks for.
    ghost asked: { Sale → RowKey };

    /// What the sales have under the key of a row, and what it tells.
    ghost has: { List Sale → Self → Option Self.Told };

    ghost told: { Self → Self.Told };

    /// How a finding names the row that a sale asks for.
    fn asked(sale: &Sale) -> RowKey
        ensures { result ≡ asked sale.now };

    /// Whether the sales that were gathered have something under its key.
    fn has_sales(&self, gathered: &Gathered) -> bool
        ensures { (sales : List Sale) → IsGathered sales gathered.now
            → result ≡ is_some (has sales self.now) };

    /// Whether it tells that.
    fn is_told(&self, gathered: &Gathered) -> bool
        ensures { (sales : List Sale) → IsGathered sales gathered.now
            → (result ≡ true) ↔ (has sales self.now ≡ Some (told self.now)) };
}

/// A meter in a month.
pub(crate) struct InMonth;

/// A shift.
pub(crate) struct OfShift;

impl KeyOf<LastId> for UnderBase {
    ghost key = { last_id_key };

    fn of<'a>(row: &'a LastId) -> LentKey<'a> {
        (row.meter.as_bytes(), b"", row.base.year(), 0)
    }
}

impl KeyOf<MonthTenths> for InMonth {
    ghost key = { month_key };

    fn of<'a>(row: &'a MonthTenths) -> LentKey<'a> {
        (row.meter.as_bytes(), b"", row.month, 0)
    }
}

impl KeyOf<Sale> for InMonth {
    ghost key = { sale_month_key };

    fn of<'a>(row: &'a Sale) -> LentKey<'a> {
        (row.meter.as_bytes(), b"", month_in(row), 0)
    }
}

impl KeyOf<ShiftTotals> for OfShift {
    ghost key = { shift_key };

    fn of<'a>(row: &'a ShiftTotals) -> LentKey<'a> {
        (b"", b"", row.shift, 0)
    }
}

impl KeyOf<Sale> for OfShift {
    ghost key = { sale_shift_key };

    fn of<'a>(row: &'a Sale) -> LentKey<'a> {
        (b"", b"", row.shift, 0)
    }
}

// The month of a sale.
fn month_in(sale: &Sale) -> u32
    ensures { result ≡ month_at sale.now.moment }
{
    month_of(sale.moment).unwrap()
}

impl Summed for LastId {
    type Key = UnderBase;

    type SaleKey = UnderBase;

    type Told = u32;

    ghost asked = { last_id_asked };

    ghost has = { last_id_of };

    ghost told = { λ r. r.tid };

    fn asked(sale: &Sale) -> RowKey {
        RowKey::Base(sale.meter, sale.base)
    }

    fn has_sales(&self, gathered: &Gathered) -> bool {
        gathered.last_id(&self.meter, self.base).is_some()
    }

    fn is_told(&self, gathered: &Gathered) -> bool {
        gathered.last_id(&self.meter, self.base) == Some(self.tid)
    }
}

impl Summed for MonthTenths {
    type Key = InMonth;

    type SaleKey = InMonth;

    type Told = u64;

    ghost asked = { month_asked };

    ghost has = { month_tenths_of };

    ghost told = { λ r. r.tenths };

    fn asked(sale: &Sale) -> RowKey {
        RowKey::Month(sale.meter, month_in(sale))
    }

    fn has_sales(&self, gathered: &Gathered) -> bool {
        gathered.tenths(&self.meter, self.month).is_some()
    }

    fn is_told(&self, gathered: &Gathered) -> bool {
        gathered.tenths(&self.meter, self.month) == Some(self.tenths)
    }
}

impl Summed for ShiftTotals {
    type Key = OfShift;

    type SaleKey = OfShift;

    type Told = Totals;

    ghost asked = { shift_asked };

    ghost has = { shift_totals_of };

    ghost told = { λ r. r.totals };

    fn asked(sale: &Sale) -> RowKey {
        RowKey::Number(u64::from(sale.shift))
    }

    fn has_sales(&self, gathered: &Gathered) -> bool {
        gathered.totals(self.shift).is_some()
    }

    fn is_told(&self, gathered: &Gathered) -> bool {
        gathered.totals(self.shift) == Some(self.totals)
    }
}
