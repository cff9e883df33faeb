//! The making of the office's tables, where there are none or those of an older format.

ghost use Rattle.std.specs.Prelude.{◌<◌, IfErr, OnOk};
ghost use Rattle.sqlite.specs.State.{HasCleanDisk};
ghost use Rattle.one_table.specs.Over.{Inside};
ghost use Rattle.one_table.specs.InTransaction.{IsUnderWay, StaysInside, WorksInside};
ghost use Rattle.book_tables.specs.format.Making.{BringsInside, BringsTables, FailsToBring};
ghost use Rattle.book_tables.specs.format.Making.{FailsToMakeMissing, HandsOver, IsSoundOfFormat};
ghost use Rattle.book_tables.specs.format.Making.{MakesMissing, TellsPresent};
ghost use Rattle.book_tables.specs.row.Rows.{present_format};
ghost use Rattle.book_tables.specs.writing.Writes.{format_write};
ghost use Rattle.book_tables.specs.writing.Writing.{WritesTables};

use crate::error::TableError;
use crate::format::fill::fill_missing;
use crate::format::tables::tables_after;
use crate::reading::pages::MeterRow;
use crate::texts::{FORMAT_SET, NEW_FORMAT};
use crate::writing::store::{put, set};
use office_rules::Sale;
use one_table::make::create_tables;
use sqlite::{Alter, Transaction};
use std::alloc::Global;

// Makes the tables that a format lacks, with nothing in them.
fn make_missing<S: Alter>(tx: &mut Transaction<'_, S>, from: u32) -> Result<(), TableError>
    requires { from < present_format }
    ensures made { WorksInside S.Store tx result (λ old new. HasCleanDisk new
        → IsSoundOfFormat from old → OnOk result (MakesMissing from old.now new.now)) }
    ensures refused { Inside S.Store tx (λ old new. HasCleanDisk new
        → IfErr result (FailsToMakeMissing S.Store from old new)) }
    ensures inside { Inside S.Store tx (λ old new. HasCleanDisk new
        → OnOk result (StaysInside old new)) }
{
    create_tables(tx, tables_after(from).texts)?;
    Ok(())
}

// Tells the present format in place of an older one, or of none.
fn tell_present<S: Alter>(tx: &mut Transaction<'_, S>, before: u32) -> Result<(), TableError>
    ensures writes { WorksInside S.Store tx result (λ old new. WritesTables (format_write before)
        (TellsPresent before) old new result) }
{
    if before == 0 {
        put(tx, NEW_FORMAT, &[])
    } else {
        set(tx, FORMAT_SET, &[])
    }
}

/// Brings the tables of a format to the present one, with the same office, whose meters and sales
/// are given; format 0 is that there are none, and the office is the empty one.
///
/// Each table that is there keeps its rows, whatever they are, but for `about`: it tells the
/// present format then. What was made before an error goes with the transaction, which the caller
/// drops.
///
/// # Errors
/// `TableError::Database` if the database refuses or fails, or memory runs out.
pub fn bring<S: Alter>(
    alloc: Global,
    tx: &mut Transaction<'_, S>,
    from: u32,
    meters: &[MeterRow],
    sales: &[Sale],
) -> Result<(), TableError>
    requires { from < present_format }
    ensures brings { WorksInside S.Store tx result (λ old new. HasCleanDisk new
        → IsSoundOfFormat from old → HandsOver old.now meters.now sales.now
        → OnOk result (BringsInside from old new)) }
    ensures leaves { Inside S.Store tx (λ old new. HasCleanDisk new → IsSoundOfFormat from old
        → OnOk result (BringsTables from old.now new.now)) }
    ensures refused { Inside S.Store tx (λ old new. HasCleanDisk new → IsUnderWay old
        → IsSoundOfFormat from old
        → IfErr result (FailsToBring S.Store from meters.now sales.now old new)) }
{
    make_missing(tx, from)?;
    fill_missing(alloc, tx, from, meters, sales)?;
    tell_present(tx, from)
}
