//! The test whether requests lead to an office.

ghost use Rattle.std.specs.Prelude.{IfErr, OnOk};
ghost use Rattle.vend_core.specs.Law.Reached.{IsPlausible};
ghost use Rattle.office_rules.specs.Office.{Office};
ghost use Rattle.audit_lists.specs.reached.Finds.{AreRowsOfOffice, TellsUnreached};

pub use laws::honest_law;

mod before;
mod lasts;
mod laws;
mod listed;
mod operators;
mod prices;
mod sales;
mod shifts;
mod walk;
mod walked;

use crate::fault::OfficeFault;
use audit_rows::OfficeRows;
use shifts::test_shifts;
use std::alloc::Global;
use walk::test_sales;

/// Nothing where the office of these rows is one that requests may have led to.
///
/// # Errors
/// `OfficeFault::Found` with the first row that no requests lead to. `OfficeFault::Memory`, only if
/// there are sales.
pub fn test_reached(alloc: Global, rows: &OfficeRows) -> Result<(), OfficeFault>
    ensures passes { OnOk result ((o : Office) → AreRowsOfOffice rows.now o → IsPlausible o) }
    ensures found { IfErr result (TellsUnreached rows.now) }
{
    test_shifts(&rows.shifts)?;
    test_sales(alloc, rows)
}
