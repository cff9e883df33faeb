//! A page of the meters.

ghost use Rattle.std.specs.Prelude.{◌≡◌, [], IfOk, map, unwrap_or};
ghost use Rattle.sqlite.specs.State.{IsUnchanged};
ghost use Rattle.one_table.specs.Over.{Over};
ghost use Rattle.book_facts.specs.Listing.{listed_meter};
ghost use Rattle.book_facts.specs.Lookups.{FindsMeters};
ghost use Rattle.book_facts.specs.Looking.{LooksUpByRules};
ghost use Rattle.book_facts.specs.LookupsSeen.{AreMetersSpoilt, FindsMetersSeen};

use book_lists::meters_after;
use book_states::{Found, ListedMeter};
use book_tables::TableError;
use book_tables::reading::pages::MeterRow;
use office_rules::{MeterNo, Refusal};
use sqlite::{Alter, Connection};
use std::alloc::{AllocError, Global};

/// A page of the meters after a number, or of all. No key goes out.
pub(crate) fn meter_page<S: Alter>(
    alloc: Global,
    conn: &mut Connection<S>,
    after: &Option<MeterNo>,
) -> Result<Result<Found, Refusal>, TableError>
    ensures { Over S.Store conn (λ old new. LooksUpByRules IsUnchanged
        (λ o. FindsMeters o after.now) (FindsMetersSeen after.now) (AreMetersSpoilt after.now) old
        new result) }
{
    let rows = meters_after(alloc, conn, number_or_none(after))?;
    let listed = listed_meters(alloc, rows)?;
    Ok(Ok(Found::Meters(listed)))
}

// The text of the number, or the empty one, which comes before all.
fn number_or_none(after: &Option<MeterNo>) -> &[u8]
    ensures { result.now ≡ unwrap_or after.now [] }
{
    match after {
        Some(number) => number.as_bytes(),
        None => &[],
    }
}

fn listed_meters(alloc: Global, rows: Vec<MeterRow>) -> Result<Vec<ListedMeter>, AllocError>
    ensures { IfOk result (λ listed. listed.items ≡ map listed_meter rows.items) }
{
    rows.into_iter()
        .map(|row| ListedMeter {
            number: row.number,
            base: row.meter.base,
            tariff: row.meter.tariff,
        })
        .collect(alloc)
}
