//! Sales in replies.

ghost use Rattle.std.specs.Prelude.{◌≡◌, ◌-◌, ◌≤◌, ◌↔◌, IsTrue};
ghost use Rattle.records.specs.Front.{IsFound};
ghost use Rattle.desk_messages.specs.reply.Records.{sale_text};
ghost use Rattle.desk_client.specs.Columns.{IsPriced, sale_columns};
ghost use Rattle.desk_client.specs.Sale.{IsSaleTold};

use crate::columns::SaleColumns;
use crate::items::Item;
use desk_messages::fields;
use office_rules::Sale;
use records::{Columns, read_front, read_whole};
use std::alloc::{AllocError, Global};

// The sale that a text tells. What it does not tell is the nibble of the token, which is 0 here.
pub(crate) fn read_sale(text: &[u8]) -> Option<Sale>
    ensures { IsFound (λ sale. IsSaleTold sale × (text.now ≡ sale_text sale)) result }
{
    <SaleColumns>::columns_law();
    match read_whole::<SaleColumns>(text, &fields::SALE) {
        Some(columns) => sale_of(&columns),
        None => None,
    }
}

impl Item for Sale {
    ghost use Rattle.desk_messages.specs.reply.Records.{sale_text};
    ghost use Rattle.desk_client.specs.Sale.{IsSaleTold};

    ghost is_told = { IsSaleTold };

    ghost text_of = { sale_text };

    fn read_front<'t>(
        _alloc: Global,
        text: &'t [u8],
    ) -> Result<Option<(Sale, &'t [u8])>, AllocError> {
        <SaleColumns>::columns_law();
        let Some((columns, rest)) = read_front::<SaleColumns>(text, &fields::SALE) else {
            return Ok(None);
        };
        match sale_of(&columns) {
            Some(sale) => Ok(Some((sale, rest))),
            None => Ok(None),
        }
    }

    fn item_law() {
        <SaleColumns>::columns_law();
    }
}

// The sale that has these columns, where the change is that of its price.
fn sale_of(columns: &SaleColumns) -> Option<Sale>
    ensures { IsFound (λ sale. IsPriced sale × (sale_columns sale ≡ columns.now)) result }
{
    let (
        base,
        (
            change,
            (
                meter,
                (
                    moment,
                    (
                        number,
                        (
                            operator,
                            (price, (order_ref, (shift, (tender, (tenths, (tid, (token, ()))))))),
                        ),
                    ),
                ),
            ),
        ),
    ) = *columns;
    let tender = tender.of;
    let digits = token.of;
    if is_change(change, tender.cents(), price) {
        Some(Sale {
            number: number.of,
            moment: moment.of,
            shift: shift.of,
            operator: operator.of,
            order_ref: order_ref.of,
            meter: meter.of,
            base: base.of,
            tid: tid.of,
            rnd: 0,
            tenths: tenths.of,
            price,
            tender,
            digits,
        })
    } else {
        None
    }
}

// Whether this is given back of a tender for a price.
pub(crate) fn is_change(change: u32, tender: u32, price: u32) -> bool
    ensures { IsTrue result ↔ ((price ≤ tender) × (change ≡ tender - price)) }
{
    price <= tender && change == tender - price
}
