ghost use Rattle.std.specs.Prelude.{◌≡◌};
ghost use Rattle.records.specs.Front.{IsFound};
ghost use Rattle.desk_messages.specs.reply.Records.{quote_text};
ghost use Rattle.desk_client.specs.Columns.{IsQuotePriced, quote_columns};
ghost use Rattle.desk_client.specs.Quote.{IsToldQuote};

use crate::columns::QuoteColumns;
use crate::sale::is_change;
use book_states::Quote;
use desk_messages::fields;
use records::{Columns, read_whole};

// The quote that a text tells.
pub(crate) fn read_quote(text: &[u8]) -> Option<Quote>
    ensures { IsFound (λ quote. IsToldQuote quote × (text.now ≡ quote_text quote)) result }
{
    <QuoteColumns>::columns_law();
    match read_whole::<QuoteColumns>(text, &fields::QUOTE) {
        Some(columns) => quote_of(&columns),
        None => None,
    }
}

// The quote that has these columns, where the change is that of its price.
fn quote_of(columns: &QuoteColumns) -> Option<Quote>
    ensures { IsFound (λ quote. IsQuotePriced quote × (quote_columns quote ≡ columns.now)) result }
{
    let (change, (meter, (price, (tariff, (tender, (tenths, ())))))) = *columns;
    let tender = tender.of;
    if is_change(change, tender.cents(), price) {
        Some(Quote {
            meter: meter.of,
            tariff: tariff.of,
            tender,
            tenths: tenths.of,
            price,
        })
    } else {
        None
    }
}
