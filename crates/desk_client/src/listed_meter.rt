ghost use Rattle.std.specs.Prelude.{◌≡◌};
ghost use Rattle.desk_client.specs.Columns.{listed_meter_columns};

use crate::columns::ListedMeterColumns;
use crate::items::Item;
use book_states::ListedMeter;
use desk_messages::fields;
use records::{Columns, read_front};
use std::alloc::{AllocError, Global};

impl Item for ListedMeter {
    ghost use Rattle.desk_messages.specs.reply.Records.{listed_meter_text};
    ghost use Rattle.desk_client.specs.Page.{IsToldListedMeter};

    ghost is_told = { IsToldListedMeter };

    ghost text_of = { listed_meter_text };

    fn read_front<'t>(
        _alloc: Global,
        text: &'t [u8],
    ) -> Result<Option<(ListedMeter, &'t [u8])>, AllocError> {
        <ListedMeterColumns>::columns_law();
        match read_front::<ListedMeterColumns>(text, &fields::LISTED_METER) {
            Some((columns, rest)) => Ok(Some((meter_of(&columns), rest))),
            None => Ok(None),
        }
    }

    fn item_law() {
        <ListedMeterColumns>::columns_law();
    }
}

// The meter that has these columns.
fn meter_of(columns: &ListedMeterColumns) -> ListedMeter
    ensures { listed_meter_columns result ≡ columns.now }
{
    let (base, (meter, (tariff, ()))) = *columns;
    ListedMeter {
        number: meter.of,
        base: base.of,
        tariff: tariff.of,
    }
}
