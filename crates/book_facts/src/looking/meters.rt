//! What is told of a meter.

ghost use Rattle.std.specs.Prelude.{◌≡◌, option_map};
ghost use Rattle.sqlite.specs.State.{IsUnchanged};
ghost use Rattle.one_table.specs.Over.{Over};
ghost use Rattle.sts_fields.specs.Calendar.{month_at};
ghost use Rattle.office_rules.specs.Office.Lookup.{prior};
ghost use Rattle.book_facts.specs.Lookups.{last_sale, meter_found};
ghost use Rattle.book_facts.specs.Looking.{LooksUpByRules};
ghost use Rattle.book_facts.specs.LookupsSeen.{IsMeterFoundSeen, IsMeterFoundSpoilt};

use crate::looking::last_sales::last_sale;
use book_states::{Found, MeterSummary};
use book_tables::reading::{meters, totals};
use book_tables::{TableError, members_law};
use office_rules::{MeterNo, Moment, Refusal, Sale};
use sqlite::{Alter, Connection};
use sts_fields::month_of;

/// What is told of the meter of a number, where there is one of it.
pub(crate) fn meter_of<S: Alter>(
    conn: &mut Connection<S>,
    moment: Moment,
    number: &MeterNo,
) -> Result<Result<Found, Refusal>, TableError>
    ensures { Over S.Store conn (λ old new. LooksUpByRules IsUnchanged
        (λ o found. found ≡ meter_found number.now (o.meters number.now) (prior o number.now
        (month_at moment)) (last_sale o number.now)) (IsMeterFoundSeen number.now moment)
        (IsMeterFoundSpoilt number.now moment) old new result) }
{
    members_law();
    let there = meters::meter_numbered(conn, number)?;
    let Some(meter) = there else {
        return Ok(Err(Refusal::NoMeter));
    };
    let month = month_of(moment).unwrap();
    let tenths = totals::tenths_in_month(conn, number, month)?;
    let last = last_sale(conn, number)?;
    Ok(Ok(Found::Meter(MeterSummary {
        number: *number,
        base: meter.base,
        tariff: meter.tariff,
        tenths,
        last_sale: number_of(last),
    })))
}

fn number_of(sale: Option<Sale>) -> Option<u32>
    ensures { result ≡ option_map (λ s. s.number) sale }
{
    match sale {
        Some(sale) => Some(sale.number),
        None => None,
    }
}
