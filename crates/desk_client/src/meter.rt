ghost use Rattle.std.specs.Prelude.{◌≡◌};
ghost use Rattle.records.specs.Front.{IsFound};
ghost use Rattle.desk_messages.specs.reply.Records.{meter_text};
ghost use Rattle.desk_client.specs.Columns.{meter_columns, row_cell};
ghost use Rattle.desk_client.specs.Meter.{IsToldMeter};

use crate::columns::{MeterColumns, RowCell};
use book_states::MeterSummary;
use desk_messages::fields;
use records::{Columns, read_whole};

// The meter that a text tells.
pub(crate) fn read_meter(text: &[u8]) -> Option<MeterSummary>
    ensures { IsFound (λ meter. IsToldMeter meter × (text.now ≡ meter_text meter)) result }
{
    <MeterColumns>::columns_law();
    match read_whole::<MeterColumns>(text, &fields::METER) {
        Some(columns) => Some(summary_of(&columns)),
        None => None,
    }
}

// The meter that has these columns.
fn summary_of(columns: &MeterColumns) -> MeterSummary
    ensures { meter_columns result ≡ columns.now }
{
    let (base, (meter, (last_sale, (tariff, (tenths, ()))))) = *columns;
    MeterSummary {
        number: meter.of,
        base: base.of,
        tariff: tariff.of,
        tenths: tenths.of,
        last_sale: row_in(last_sale),
    }
}

// The number of a sale, if there is one.
fn row_in(cell: Option<RowCell>) -> Option<u32>
    ensures { row_cell result ≡ cell }
{
    match cell {
        Some(row) => Some(row.of),
        None => None,
    }
}
