//! The last shift of each operator.

ghost use Rattle.std.specs.Prelude.{◌≡◌, OnOk, length, max, min};
ghost use Rattle.audit_lists.specs.reached.Lasts.{AreLasts, last_shift_under};

use office_rules::Shift;
use std::alloc::AllocError;
use std::collections::BTreeMap;

/// The place, from 0, of the last one of some first shifts of each operator, under its text.
pub(crate) type LastShifts<'a> = BTreeMap<&'a [u8], usize>;

/// The place of an operator's last one, if any.
pub(crate) fn last_of<'a>(lasts: &LastShifts<'a>, operator: &'a [u8]) -> Option<usize>
    ensures { result ≡ last_shift_under lasts.now operator.now }
{
    lasts.get(&operator).copied()
}

/// Adds the shifts after the latest one that was added, up to another one, both by their numbers;
/// none where that one is no later.
///
/// # Errors
/// `AllocError` if there is no memory.
pub(crate) fn add_shifts<'a>(
    lasts: &mut LastShifts<'a>,
    shifts: &'a [Shift],
    latest: u32,
    number: u32,
) -> Result<(), AllocError>
    ensures { OnOk result (AreLasts lasts.old shifts.now (min (length shifts.now) latest)
        → AreLasts lasts.new shifts.now (min (length shifts.now) (max latest number))) }
{
    let end = shifts.len().min(number as usize);
    'shifts: for at in latest as usize..end {
        lasts.insert(shifts[at].operator.as_bytes(), at)?;
    }
    Ok(())
}
