//! What rows are told apart by, and what they name others by.

ghost use Rattle.std.specs.Prelude.{◌≡◌};
ghost use Rattle.office_rules.specs.declared.office.sale.Sale.{Sale};
ghost use Rattle.office_rules.specs.declared.office.shift.Shift.{Shift};
ghost use Rattle.audit_lists.specs.Keys.{Key, owned_key};
ghost use Rattle.audit_lists.specs.RowKeys.{base_key, dated_before_key, dated_first_key, dated_key};
ghost use Rattle.audit_lists.specs.RowKeys.{dated_tariff_key, meter_base_key, meter_key};
ghost use Rattle.audit_lists.specs.RowKeys.{meter_tariff_key, name_key, open_key, ref_key};
ghost use Rattle.audit_lists.specs.RowKeys.{sale_base_key, step_before_key, step_key};
ghost use Rattle.audit_lists.specs.RowKeys.{step_tariff_key, tid_key};

use audit_rows::{BaseRow, DatedStepRow, MeterRow, StepRow};
use office_rules::{Sale, Shift, TariffName};

/// A key of rows: two texts and two numbers; where a row has fewer, the rest are empty and 0.
pub(crate) type LentKey<'a> = (&'a [u8], &'a [u8], u32, u32);

/// What rows of a type are told apart by, or what they name others by.
pub(crate) trait KeyOf<T> {
    /// The key of a row.
    ghost key: { T → Key };

    fn of<'a>(row: &'a T) -> LentKey<'a>
        ensures { owned_key result ≡ key row.now };
}

/// A tariff by its name.
pub(crate) struct Name;

impl KeyOf<TariffName> for Name {
    ghost key = { name_key };

    fn of<'a>(row: &'a TariffName) -> LentKey<'a> {
        (row.as_bytes(), b"", 0, 0)
    }
}

/// A step, or a meter, by its tariff's name.
pub(crate) struct Tariff;

/// A step by its place.
pub(crate) struct Place;

/// A step by the place before it; the first one by its own.
pub(crate) struct Before;

impl KeyOf<StepRow> for Tariff {
    ghost key = { step_tariff_key };

    fn of<'a>(row: &'a StepRow) -> LentKey<'a> {
        (row.tariff.as_bytes(), b"", 0, 0)
    }
}

impl KeyOf<StepRow> for Place {
    ghost key = { step_key };

    fn of<'a>(row: &'a StepRow) -> LentKey<'a> {
        (row.tariff.as_bytes(), b"", 0, row.place)
    }
}

impl KeyOf<StepRow> for Before {
    ghost key = { step_before_key };

    fn of<'a>(row: &'a StepRow) -> LentKey<'a> {
        (row.tariff.as_bytes(), b"", 0, row.place.saturating_sub(1))
    }
}

/// A dated step by the first place of its tariff and day.
pub(crate) struct First;

impl KeyOf<DatedStepRow> for Tariff {
    ghost key = { dated_tariff_key };

    fn of<'a>(row: &'a DatedStepRow) -> LentKey<'a> {
        (row.tariff.as_bytes(), b"", 0, 0)
    }
}

impl KeyOf<DatedStepRow> for Place {
    ghost key = { dated_key };

    fn of<'a>(row: &'a DatedStepRow) -> LentKey<'a> {
        (row.tariff.as_bytes(), b"", row.day.days(), row.place)
    }
}

impl KeyOf<DatedStepRow> for Before {
    ghost key = { dated_before_key };

    fn of<'a>(row: &'a DatedStepRow) -> LentKey<'a> {
        let before = row.place.saturating_sub(1);
        (row.tariff.as_bytes(), b"", row.day.days(), before)
    }
}

impl KeyOf<DatedStepRow> for First {
    ghost key = { dated_first_key };

    fn of<'a>(row: &'a DatedStepRow) -> LentKey<'a> {
        (row.tariff.as_bytes(), b"", row.day.days(), 0)
    }
}

/// A meter by its number.
pub(crate) struct Number;

/// A base under its meter: a row of one, a meter's present one, or a sale's.
pub(crate) struct UnderBase;

impl KeyOf<MeterRow> for Number {
    ghost key = { meter_key };

    fn of<'a>(row: &'a MeterRow) -> LentKey<'a> {
        (row.number.as_bytes(), b"", 0, 0)
    }
}

impl KeyOf<MeterRow> for Tariff {
    ghost key = { meter_tariff_key };

    fn of<'a>(row: &'a MeterRow) -> LentKey<'a> {
        (row.meter.tariff.as_bytes(), b"", 0, 0)
    }
}

impl KeyOf<MeterRow> for UnderBase {
    ghost key = { meter_base_key };

    fn of<'a>(row: &'a MeterRow) -> LentKey<'a> {
        (row.number.as_bytes(), b"", row.meter.base.year(), 0)
    }
}

impl KeyOf<BaseRow> for UnderBase {
    ghost key = { base_key };

    fn of<'a>(row: &'a BaseRow) -> LentKey<'a> {
        (row.meter.as_bytes(), b"", row.base.year(), 0)
    }
}

/// A shift by its operator, and by its number where it is closed: only open ones share a key.
pub(crate) struct Open;

impl KeyOf<Shift> for Open {
    ghost key = { open_key };

    fn of<'a>(row: &'a Shift) -> LentKey<'a> {
        let number = if row.closed.is_some() { row.number } else { 0 };
        (row.operator.as_bytes(), b"", number, 0)
    }
}

/// A sale by its identifier, under its meter and base.
pub(crate) struct Identifier;

/// A sale by its ref, under its operator.
pub(crate) struct OrderRef;

impl KeyOf<Sale> for Identifier {
    ghost key = { tid_key };

    fn of<'a>(row: &'a Sale) -> LentKey<'a> {
        (row.meter.as_bytes(), b"", row.base.year(), row.tid)
    }
}

impl KeyOf<Sale> for OrderRef {
    ghost key = { ref_key };

    fn of<'a>(row: &'a Sale) -> LentKey<'a> {
        (row.operator.as_bytes(), row.order_ref.as_bytes(), 0, 0)
    }
}

impl KeyOf<Sale> for UnderBase {
    ghost key = { sale_base_key };

    fn of<'a>(row: &'a Sale) -> LentKey<'a> {
        (row.meter.as_bytes(), b"", row.base.year(), 0)
    }
}
