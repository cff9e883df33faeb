//! The bringing of a database to the present format, from none or from an older one.

ghost use Rattle.std.specs.Prelude.{◌≡◌, ◌≢◌, ◌⊎◌, ◌<◌, false, IsTrue, IfErr, OnErr, OnOk};
ghost use Rattle.sqlite.specs.Effect.{IsDatabase};
ghost use Rattle.sqlite.specs.State.{HasCleanDisk, Survives};
ghost use Rattle.one_table.specs.Over.{Over};
ghost use Rattle.book_tables.specs.declared.error.TableError.TheVariants.{RowOfNoOffice};
ghost use Rattle.book_tables.specs.Holds.{HasOfficeOf};
ghost use Rattle.book_tables.specs.format.Making.{FailsToBring, IsSoundOfFormat};
ghost use Rattle.book_tables.specs.row.Rows.{present_format};
ghost use Rattle.book_opening.specs.Opening.{AfterStore, BringsSound, FailsToBringUp, IsBrought};
ghost use Rattle.book_opening.specs.Opening.{IsSoundWith, LeavesPresent};
ghost use Rattle.book_states.specs.Same.{IsSame};

use crate::fault::OpenFault;
use crate::opening::fault_of_table;
use book_tables::TableError;
use book_tables::format::upgrade::bring;
use book_tables::reading::pages::MeterRow;
use office_rules::Sale;
use one_table::{Change, CommitFault, change_once};
use sqlite::{Alter, Connection, Transaction};
use std::alloc::Global;

/// The tables of a format, or none, are brought to the present one; these are the meters and the
/// sales of their office.
#[derive(Drop)]
struct Bringing<'a> {
    alloc: Global,
    from: u32,
    meters: &'a [MeterRow],
    sales: &'a [Sale],
    ghost older: { from < present_format },
}

impl<S: Alter> Change<S> for Bringing<'_> {
    type Fault = TableError;

    ghost makes = { λ change. BringsSound change.from change.meters.now change.sales.now };

    ghost tells = { λ change db error. IsDatabase db → HasOfficeOf change.from db.schema
        → error ≢ RowOfNoOffice };

    ghost fails = { λ change old new error. IsSoundOfFormat change.from old
        → FailsToBring S.Store change.from change.meters.now change.sales.now old new error };

    fn make(&self, tx: &mut Transaction<'_, S>) -> Result<(), TableError> {
        bring(self.alloc, tx, self.from, self.meters, self.sales)
    }
}

/// Brings the tables of a format to the present one, in one commit; format 0 is that there are
/// none.
pub(crate) fn bring_office<S: Alter>(
    alloc: Global,
    conn: &mut Connection<S>,
    from: u32,
    meters: &[MeterRow],
    sales: &[Sale],
) -> Result<(), OpenFault>
    requires outside { conn.old.in_transaction ≡ false }
    requires older { from < present_format }
    ensures brought { Over S.Store conn (λ old new. HasCleanDisk new
        → IsSoundWith from meters.now sales.now old → OnOk result (IsBrought from old new)) }
    ensures told { Over S.Store conn (λ old new. HasCleanDisk new → IsTrue old.is_open
        → IsSoundOfFormat from old
        → IfErr result (λ fault. (fault ≡ OpenFault.Store) ⊎ (fault ≡ OpenFault.Memory))) }
    ensures undone { Over S.Store conn (λ old new. HasCleanDisk new
        → OnErr result (IsSame old new)) }
    ensures survives { Over S.Store conn (λ old new. (HasCleanDisk old → IsTrue old.is_open)
        → IsSoundWith from meters.now sales.now old → Survives old new (LeavesPresent from old)) }
    ensures risks { Over S.Store conn (λ old new. (HasCleanDisk old → IsTrue old.is_open)
        → IsSoundWith from meters.now sales.now old
        → IfErr result (λ fault. Survives old new (AfterStore (LeavesPresent from old) fault))) }
    ensures fails { Over S.Store conn (λ old new. HasCleanDisk new
        → IsSoundWith from meters.now sales.now old
        → IfErr result (FailsToBringUp S.Store from conn.old new)) }
    ensures mode { conn.new.in_transaction ≡ false }
{
    // Outside a transaction a connection has what is committed.
    let outside = conn.is_autocommit();
    prove!(outside);
    let change = Bringing {
        alloc,
        from,
        meters,
        sales,
    };
    match change_once(conn, &change) {
        Ok(()) => Ok(()),
        Err(CommitFault::Unmade(error)) => Err(fault_of_table(error)),
        Err(CommitFault::InDoubt(_)) => Err(OpenFault::Store),
    }
}
