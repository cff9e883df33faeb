//! The filling of tables that a format lacked, from the meters and the sales of the office.

ghost use Rattle.std.specs.Prelude.{◌≡◌, ◌<◌, map};
ghost use Rattle.std.specs.BTreeMap.{values};
ghost use Rattle.one_table.specs.Over.{Inside};
ghost use Rattle.book_tables.specs.format.Filling.{AreFilling, ArePut, AreTotalsWrites, Fills};
ghost use Rattle.book_tables.specs.format.Filling.{FillsBases, FillsTotals, PutsFirst, base_write};
ghost use Rattle.book_tables.specs.format.Making.{FillsMissing};
ghost use Rattle.book_tables.specs.row.Rows.{present_format};

use crate::error::TableError;
use crate::reading::pages::MeterRow;
use crate::row::gathered::Gathered;
use crate::writing::bases::add_base;
use crate::writing::first_totals::TotalRow;
use office_rules::Sale;
use sqlite::{Alter, Transaction};
use std::alloc::Global;
use std::collections::BTreeMap;
use sts_fields::amount_law;

// Puts the rows of a table of totals in, which has none.
fn put_all<S: Alter, K: Ord, T: TotalRow>(
    tx: &mut Transaction<'_, S>,
    rows: &BTreeMap<K, T>,
) -> Result<(), TableError>
    ensures same_reference { tx.new.conn.ghost_name ≡ tx.old.conn.ghost_name }
    ensures fills { Inside S.Store tx (λ old new. Fills (ArePut T.TotalRow.puts (values rows.now))
        (PutsFirst T.TotalRow.in_table T.TotalRow.are (values rows.now)) old new result) }
{
    'rows: for row in rows.values() {
        row.put(tx)?;
    }
    Ok(())
}

// Makes the totals of the sales, where there are none: one row for each key.
fn fill_totals<S: Alter>(
    alloc: Global,
    tx: &mut Transaction<'_, S>,
    sales: &[Sale],
) -> Result<(), TableError>
    ensures same_reference { tx.new.conn.ghost_name ≡ tx.old.conn.ghost_name }
    ensures fills { Inside S.Store tx (λ old new. Fills (AreTotalsWrites sales.now)
        (FillsTotals sales.now) old new result) }
{
    amount_law();
    let mut gathered = Gathered::new(alloc);
    gathered.add_all(sales)?;
    put_all(tx, &gathered.last_ids)?;
    put_all(tx, &gathered.month_tenths)?;
    put_all(tx, &gathered.shift_totals)
}

// Makes the present base of each meter one that it had.
fn fill_bases<S: Alter>(tx: &mut Transaction<'_, S>, meters: &[MeterRow]) -> Result<(), TableError>
    ensures same_reference { tx.new.conn.ghost_name ≡ tx.old.conn.ghost_name }
    ensures fills { Inside S.Store tx (λ old new. Fills (λ writes. writes ≡ map base_write
        meters.now) (FillsBases meters.now) old new result) }
{
    'bases: for present in meters {
        add_base(tx, &present.number, present.meter.base)?;
    }
    Ok(())
}

/// Fills the tables that a format lacked, which have no rows.
///
/// # Errors
/// `TableError::Database` if the database refuses or fails, or memory runs out.
pub(crate) fn fill_missing<S: Alter>(
    alloc: Global,
    tx: &mut Transaction<'_, S>,
    from: u32,
    meters: &[MeterRow],
    sales: &[Sale],
) -> Result<(), TableError>
    requires { from < present_format }
    ensures same_reference { tx.new.conn.ghost_name ≡ tx.old.conn.ghost_name }
    ensures fills { Inside S.Store tx (λ old new. Fills (AreFilling from meters.now sales.now)
        (FillsMissing from meters.now sales.now) old new result) }
{
    match from {
        1 => {
            fill_totals(alloc, tx, sales)?;
            fill_bases(tx, meters)
        }
        2 => fill_bases(tx, meters),
        _ => Ok(()),
    }
}
