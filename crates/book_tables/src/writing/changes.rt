//! The statements that change rows of the tables.

ghost use Rattle.one_table.specs.InTransaction.{WorksInside};
ghost use Rattle.book_tables.specs.writing.Writes.{key_set, shift_ended, tariff_set};
ghost use Rattle.book_tables.specs.writing.Writing.{ClosesShift, SetsKey, SetsTariff, WritesTables};

use crate::error::TableError;
use crate::row::values::{seconds, whole};
use crate::texts::{KEY_SET, SHIFT_CLOSED, TARIFF_SET};
use crate::writing::store::set;
use office_rules::{MeterNo, TariffName};
use sqlite::types::ValueRef;
use sqlite::{Alter, Transaction};
use sts_fields::Moment;
use sts_token::key_text;

/// Closes the shift of a number at a moment.
///
/// # Errors
/// `TableError::Database` if there is no memory, or the disk fails.
pub fn close_shift<S: Alter>(
    tx: &mut Transaction<'_, S>,
    number: u32,
    moment: Moment,
) -> Result<(), TableError>
    ensures writes { WorksInside S.Store tx result (λ old new. WritesTables
        (shift_ended number moment) (ClosesShift number moment) old new result) }
{
    set(tx, SHIFT_CLOSED, &[whole(number), seconds(moment)])
}

/// Sets the tariff of the meter of a number.
///
/// # Errors
/// `TableError::Database`: a tariff that is not there; or there is no memory, or the disk fails.
pub fn set_tariff<S: Alter>(
    tx: &mut Transaction<'_, S>,
    number: &MeterNo,
    name: &TariffName,
) -> Result<(), TableError>
    ensures writes { WorksInside S.Store tx result (λ old new. WritesTables
        (tariff_set number.now name.now) (SetsTariff number.now name.now) old new result) }
{
    let values = [
        ValueRef::Text(number.as_bytes()),
        ValueRef::Text(name.as_bytes()),
    ];
    set(tx, TARIFF_SET, &values)
}

/// Sets the key of the meter of a number.
///
/// # Errors
/// `TableError::Database` if there is no memory, or the disk fails.
pub fn set_key<S: Alter>(
    tx: &mut Transaction<'_, S>,
    number: &MeterNo,
    key: u64,
) -> Result<(), TableError>
    ensures writes { WorksInside S.Store tx result (λ old new. WritesTables
        (key_set number.now key) (SetsKey number.now key) old new result) }
{
    let secret = key_text(key);
    let values = [ValueRef::Text(number.as_bytes()), ValueRef::Text(&secret)];
    set(tx, KEY_SET, &values)
}
