//! A sale, with the totals that it changes.

ghost use Rattle.std.specs.Prelude.{IfErr, OnOk};
ghost use Rattle.sqlite.specs.State.{HasCleanDisk};
ghost use Rattle.one_table.specs.Over.{Inside};
ghost use Rattle.one_table.specs.InTransaction.{IsUnderWay, WorksInside};
ghost use Rattle.book_tables.specs.writing.Writes.{AreCarriedOut, sale_writes};
ghost use Rattle.book_tables.specs.reading.Reading.{HasAllTables};
ghost use Rattle.office_rules.specs.declared.decision.change.Edit.TheVariants.{AddSale};
ghost use Rattle.book_states.specs.Changing.{AddsAsComputed};
ghost use Rattle.book_states.specs.Failing.{FailsToMakeEdit};

use book_tables::TableError;
use book_tables::writing::totals::add_sold;
use office_rules::Sale;
use sqlite::{Alter, Transaction};

/// Adds a sale with its totals, where its meter had so many tenths in its month before it.
///
/// Rows that tell other tenths after it are no office's.
pub(crate) fn add_counted<S: Alter>(
    tx: &mut Transaction<'_, S>,
    sale: &Sale,
    prior: u64,
) -> Result<(), TableError>
    ensures added { WorksInside S.Store tx result (λ old new. HasCleanDisk new → IsUnderWay old
        → HasAllTables old → OnOk result (AddsAsComputed sale.now prior old new)) }
    ensures carried { Inside S.Store tx (λ old new. HasCleanDisk new → IsUnderWay old
        → HasAllTables old → OnOk result (AreCarriedOut (sale_writes sale.now) old new)) }
    ensures refused { Inside S.Store tx (λ old new. HasCleanDisk new → IsUnderWay old
        → HasAllTables old → IfErr result (FailsToMakeEdit (AddSale sale.now) prior old new)) }
{
    let totals = add_sold(tx, sale)?;
    let tenths = u64::from(sale.tenths.tenths());
    if totals.month_tenths < tenths {
        return Err(TableError::RowOfNoOffice);
    }
    if totals.month_tenths - tenths != prior {
        return Err(TableError::RowOfNoOffice);
    }
    Ok(())
}
