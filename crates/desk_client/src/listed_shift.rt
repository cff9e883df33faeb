ghost use Rattle.std.specs.Prelude.{◌≡◌};
ghost use Rattle.records.specs.Front.{IsFound};
ghost use Rattle.desk_client.specs.Columns.{listed_shift_columns, moment_cell};
ghost use Rattle.desk_client.specs.Totals.{AreTotals};

use crate::columns::{ListedShiftColumns, MomentCell};
use crate::items::Item;
use crate::totals::totals_within;
use book_states::ListedShift;
use desk_messages::fields;
use office_rules::{Moment, Shift};
use records::{Columns, read_front};
use std::alloc::{AllocError, Global};

impl Item for ListedShift {
    ghost use Rattle.desk_messages.specs.reply.Records.{listed_shift_text};
    ghost use Rattle.desk_client.specs.Page.{IsToldListedShift};

    ghost is_told = { IsToldListedShift };

    ghost text_of = { listed_shift_text };

    fn read_front<'t>(
        _alloc: Global,
        text: &'t [u8],
    ) -> Result<Option<(ListedShift, &'t [u8])>, AllocError> {
        <ListedShiftColumns>::columns_law();
        let Some((columns, rest)) = read_front::<ListedShiftColumns>(text, &fields::LISTED_SHIFT)
        else {
            return Ok(None);
        };
        match shift_of(&columns) {
            Some(shift) => Ok(Some((shift, rest))),
            None => Ok(None),
        }
    }

    fn item_law() {
        <ListedShiftColumns>::columns_law();
    }
}

// The shift that has these columns.
fn shift_of(columns: &ListedShiftColumns) -> Option<ListedShift>
    ensures { IsFound (λ shift. AreTotals shift.totals
        × (listed_shift_columns shift ≡ columns.now)) result }
{
    let (cash, (closed, (number, (opened, (operator, (sales, (tenths, ()))))))) = *columns;
    let Some(totals) = totals_within(sales, tenths, cash) else {
        return None;
    };
    Some(ListedShift {
        shift: Shift {
            number: number.of,
            operator: operator.of,
            opened: opened.of,
            closed: moment_in(closed),
        },
        totals,
    })
}

// The moment of an end, if there is one.
fn moment_in(cell: Option<MomentCell>) -> Option<Moment>
    ensures { moment_cell result ≡ cell }
{
    match cell {
        Some(moment) => Some(moment.of),
        None => None,
    }
}
