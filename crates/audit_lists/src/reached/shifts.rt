//! Shifts that come after an open one of their operator.

ghost use Rattle.std.specs.Prelude.{◌≡◌, ◌⊎◌, ◌+◌, ◌<◌, ◌≤◌, IfErr, OnOk, length};
ghost use Rattle.audit_lists.specs.Ties.{IsFirst, IsTieKept};
ghost use Rattle.audit_lists.specs.reached.Finds.{closed_first};
ghost use Rattle.audit_lists.specs.reached.Shifts.{AreClosedFirst, IsAfterOpen};

use crate::fault::found;
use crate::reached::operators::is_same;
use audit_rows::{Finding, Rule};
use office_rules::Shift;

// The place of the first shift before an end that comes after the one at a place, which is open and
// its operator's; or the end.
fn end_after(shifts: &[Shift], at: usize, end: usize) -> usize
    requires at { at < length shifts.now }
    requires end { end ≤ length shifts.now }
    ensures within { result ≤ end }
    ensures closed { AreClosedFirst shifts.now at end → AreClosedFirst shifts.now (at + 1) result }
    ensures after { (result ≡ end) ⊎ IsAfterOpen shifts.now result }
{
    let shift = &shifts[at];
    if shift.closed.is_some() {
        return end;
    }
    'later: for later in at + 1..end {
        if is_same(&shift.operator, &shifts[later].operator) {
            return later;
        }
    }
    end
}

/// Nothing where each shift was opened once the one before of its operator was closed.
///
/// # Errors
/// The `Finding` of the first that was not.
pub(crate) fn test_shifts(shifts: &[Shift]) -> Result<(), Finding>
    ensures passes { OnOk result (IsTieKept (closed_first shifts.now)) }
    ensures found { IfErr result (IsFirst (closed_first shifts.now)) }
{
    let mut end = shifts.len();
    'shifts: for at in 0..shifts.len() {
        end = end_after(shifts, at, end);
    }
    if end < shifts.len() {
        return Err(found(&shifts[end], Rule::Order));
    }
    Ok(())
}
