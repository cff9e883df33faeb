//! The first row of a tree that is not stored whole.

ghost use Rattle.std.specs.Prelude.{IfErr, IfOk, IsTrue, OnOk};
ghost use Rattle.sqlite_disk.specs.Disk.{MoreFaults};
ghost use Rattle.sqlite_exec.specs.Calls.{OnlyReads};
ghost use Rattle.sqlite_trees.specs.View.{HasCause, IsClean, IsFailure, IsQuiet, Tells};
ghost use Rattle.whole_rows.specs.Partial.{FindsPartial};

use sqlite_exec::check::all_rows;
use sqlite_exec::work::Workspace;
use sqlite_trees::error::StoreError;
use sqlite_trees::store::Store;
use sqlite_value::row::Row;
use std::alloc::Global;

// The place of the first row that has not so many values.
fn place_of_partial(rows: &[Row], width: usize) -> Option<usize>
    ensures { FindsPartial width rows.now result }
{
    'rows: for at in 0..rows.len() {
        if rows[at].len() != width {
            return Some(at + 1);
        }
    }
    None
}

/// The place, from 1, of the first row of a tree that is not stored with so many values, of which
/// its number is the first.
///
/// # Errors
/// The `StoreError` of the first read that fails, also for want of memory.
pub fn first_partial<S: Store>(
    alloc: Global,
    store: &mut S,
    tree: u32,
    width: usize,
) -> Result<Option<usize>, StoreError>
    ensures finds { IfOk result (λ found. IsClean (S.Store.view store.new)
        → FindsPartial width ((S.Store.view store.old).trees tree) found) }
    ensures reads { OnOk result (IsClean (S.Store.view store.new)
        → IsTrue (S.Store.view store.old).is_open
        × OnlyReads (S.Store.view store.old) (S.Store.view store.new)) }
    ensures fails { IfErr result (λ e. IsClean (S.Store.view store.new)
        → HasCause (S.Store.view store.old)
        (MoreFaults (S.Store.faults store.old) (S.Store.faults store.new)) ⊥ e
        × IsFailure (S.Store.view store.old) (S.Store.view store.new) e
        × Tells (S.Store.blamed store.new) e) }
    ensures quiet { IsQuiet S.Store.view S.Store.faults S.Store.recovers S.Store.is_shielded
        store.old store.new }
{
    let mut work = Workspace::new(alloc);
    let rows = all_rows(store, &mut work, tree)?;
    Ok(place_of_partial(rows.as_slice(), width))
}
