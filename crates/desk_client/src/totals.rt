ghost use Rattle.std.specs.Prelude.{◌≡◌};
ghost use Rattle.records.specs.Front.{IsFound};
ghost use Rattle.desk_messages.specs.reply.Records.{totals_text};
ghost use Rattle.desk_client.specs.Columns.{totals_columns};
ghost use Rattle.desk_client.specs.Totals.{AreTotals, IsToldTotals};

use crate::columns::TotalsColumns;
use book_tables::Totals;
use desk_messages::fields;
use office_rules::GREATEST_COUNT;
use records::{Columns, read_whole};
use sts_fields::Amount;
use tariff::Tender;

// The number of a shift and its totals, as a text tells them.
pub(crate) fn read_totals(text: &[u8]) -> Option<(u32, Totals)>
    ensures { IsFound (λ found. IsToldTotals found.0 found.1
        × (text.now ≡ totals_text found.0 found.1)) result }
{
    <TotalsColumns>::columns_law();
    match read_whole::<TotalsColumns>(text, &fields::TOTALS) {
        Some(columns) => totals_of(&columns),
        None => None,
    }
}

// The number and the totals that have these columns.
fn totals_of(columns: &TotalsColumns) -> Option<(u32, Totals)>
    ensures { IsFound (λ found. AreTotals found.1 × (totals_columns found ≡ columns.now)) result }
{
    let (cash, (sales, (shift, (tenths, ())))) = *columns;
    match totals_within(sales, tenths, cash) {
        Some(totals) => Some((shift.of, totals)),
        None => None,
    }
}

// The totals that these are, where a shift may have them.
pub(crate) fn totals_within(sales: u64, tenths: u64, cash: u64) -> Option<Totals>
    ensures { IsFound (λ totals. AreTotals totals
        × (totals ≡ record { sales = sales; tenths = tenths; cash = cash })) result }
{
    if sales > GREATEST_COUNT
        || tenths > u64::from(Amount::MAX_TENTHS) * sales
        || cash > Tender::MAX_CENTS * sales
    {
        return None;
    }
    Some(Totals {
        sales,
        tenths,
        cash,
    })
}
