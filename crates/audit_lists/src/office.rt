//! The test of all rows.

ghost use Rattle.std.specs.Prelude.{IfErr, OnOk};
ghost use Rattle.audit_lists.specs.Ties.{AreKept, Says};
ghost use Rattle.audit_lists.specs.Told.{BreaksOffice, rules_of};

use crate::fault::OfficeFault;
use crate::rules::test_rules;
use crate::totals::test_totals;
use audit_rows::OfficeRows;
use std::alloc::Global;

/// Nothing where the rows of the tables of a format keep the rules of an office's members and of
/// its totals, of which the first format has no tables (`office_law`); or the first row that breaks
/// one.
///
/// # Errors
/// `OfficeFault::Found` with the first row that breaks a rule, `OfficeFault::Memory` if there is no
/// memory.
pub fn test_office(alloc: Global, format: u32, rows: &OfficeRows) -> Result<(), OfficeFault>
    ensures passes { OnOk result (AreKept (rules_of format rows.now)) }
    ensures found { IfErr result (Says (BreaksOffice format rows.now)) }
{
    test_rules(alloc, rows)?;
    if format < 2 {
        return Ok(());
    }
    test_totals(alloc, rows)
}
