//! The rules of a sale that look at its shift and its digits.

ghost use Rattle.std.specs.Prelude.{◌≡◌, ◌↔◌, ℕ, List, IsTrue, length, min};
ghost use Rattle.sts_token.specs.Reading.{IsOfClassZero};
ghost use Rattle.vend_core.specs.Law.Reached.{IsInOpenShift, IsInOwnShift};
ghost use Rattle.office_rules.specs.Office.{IsOffice, Office};
ghost use Rattle.office_rules.specs.declared.office.sale.Sale.{Sale};
ghost use Rattle.audit_lists.specs.reached.Lasts.{AreLasts};
ghost use Rattle.audit_lists.specs.reached.Walk.{IsLatestOf};

use crate::reached::lasts::{LastShifts, last_of};
use crate::reached::operators::is_same;
use office_rules::{Sale, Shift};
use sts_token::{Plain, TokenFault, read};

// Whether a sale's operator is that of its shift.
pub(crate) fn is_in_own_shift(shifts: &[Shift], sale: &Sale) -> bool
    ensures { (o : Office) → IsOffice o → o.shifts ≡ shifts.now
        → (IsTrue result ↔ IsInOwnShift o sale.now) }
{
    if sale.shift == 0 {
        return false;
    }
    match shifts.get(sale.shift as usize - 1) {
        Some(shift) => {
            if shift.number != sale.shift {
                return false;
            }
            is_same(&shift.operator, &sale.operator)
        }
        None => false,
    }
}

// Whether no shift of a sale's operator was opened after its own and up to the latest one, which
// is the last of those of which the map has each operator's last one.
pub(crate) fn is_in_open_shift<'a>(lasts: &LastShifts<'a>, sale: &'a Sale) -> bool
    ensures { (o : Office) (earlier : List Sale) (latest : ℕ) → IsOffice o
        → IsLatestOf earlier latest → AreLasts lasts.now o.shifts (min (length o.shifts) latest)
        → (IsTrue result ↔ IsInOpenShift o earlier sale.now) }
{
    match last_of(lasts, sale.operator.as_bytes()) {
        Some(place) => place < sale.shift as usize,
        None => true,
    }
}

// Whether some digits are those of a token of class 0.
pub(crate) fn is_of_class_zero(digits: &[u8]) -> bool
    ensures { IsTrue result ↔ IsOfClassZero digits.now }
{
    match read(&Plain, 0, digits) {
        Ok(_) => true,
        Err(fault) => match fault {
            TokenFault::NotTwentyDigits => false,
            TokenFault::TooLarge => false,
            TokenFault::WrongClass => false,
            TokenFault::BadCheck => true,
            TokenFault::WrongSubclass => true,
        },
    }
}
