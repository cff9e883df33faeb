//! Rows that are numbered 1, 2, 3 and on.

ghost use Rattle.std.specs.Prelude.{◌≡◌, IfErr, OnOk};
ghost use Rattle.audit_lists.specs.Ties.{IsFirst, IsTieKept, few, listed, numbered};

use crate::fault::found_number;
use audit_rows::{Finding, Named, Rule};
use office_rules::{GREATEST_COUNT, Sale, Shift};

/// A row that has a number.
pub(crate) trait Numbered {
    ghost use Rattle.std.specs.Prelude.{ℕ};

    ghost number: { Self → ℕ };

    fn number(&self) -> u32
        ensures { result ≡ number self.now };
}

impl Numbered for Shift {
    ghost number = { λ s. s.number };

    fn number(&self) -> u32 {
        self.number
    }
}

impl Numbered for Sale {
    ghost number = { λ s. s.number };

    fn number(&self) -> u32 {
        self.number
    }
}

/// Nothing where the rows are numbered; or the first number, from 1, that is not that of its row.
///
/// # Errors
/// The `Finding` of that row.
pub(crate) fn test_numbers<T: Named + Numbered>(rows: &[T]) -> Result<(), Finding>
    ensures passes { OnOk result (IsTieKept (numbered (listed T.name T.key rows.now) T.number)) }
    ensures found { IfErr result (IsFirst (numbered (listed T.name T.key rows.now) T.number)) }
{
    'rows: for at in 0..rows.len() {
        let wanted = at as u64 + 1;
        if u64::from(rows[at].number()) != wanted {
            return Err(found_number::<T>(wanted, Rule::Gap));
        }
    }
    Ok(())
}

/// Nothing where there are no more rows than an office holds; or the first number that is too high.
///
/// # Errors
/// The `Finding` of that number.
pub(crate) fn test_count<T: Named>(rows: &[T]) -> Result<(), Finding>
    ensures passes { OnOk result (IsTieKept (few (listed T.name T.key rows.now))) }
    ensures found { IfErr result (IsFirst (few (listed T.name T.key rows.now))) }
{
    if rows.len() as u64 <= GREATEST_COUNT {
        Ok(())
    } else {
        Err(found_number::<T>(GREATEST_COUNT + 1, Rule::Surplus))
    }
}
