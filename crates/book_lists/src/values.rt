//! The values that the statements bind.

ghost use Rattle.std.specs.Prelude.{◌≡◌, ◌∷◌, []};
ghost use Rattle.sqlite.specs.Values.{bound};
ghost use Rattle.sqlite.specs.declared.types.Value.TheVariants.{Text};
ghost use Rattle.book_tables.specs.row.Rows.{number};
ghost use Rattle.book_lists.specs.Pages.{page_size};

use crate::PAGE;
use office_rules::TariffName;
use sqlite::types::ValueRef;
use sts_fields::Day;

/// A text, and how many rows a page has.
pub(crate) fn text_values(after: &[u8]) -> [ValueRef<'_>; 2]
    ensures { bound result ≡ Text after.now ∷ number page_size ∷ [] }
{
    [ValueRef::Text(after), ValueRef::Int(i64::from(PAGE))]
}

/// A number, and how many rows a page has.
pub(crate) fn number_values(after: u32) -> [ValueRef<'static>; 2]
    ensures { bound result ≡ number after ∷ number page_size ∷ [] }
{
    [
        ValueRef::Int(i64::from(after)),
        ValueRef::Int(i64::from(PAGE)),
    ]
}

/// The name of a tariff, and a day.
pub(crate) fn day_values(name: &TariffName, day: Day) -> [ValueRef<'_>; 2]
    ensures { bound result ≡ Text name.now ∷ number day ∷ [] }
{
    [
        ValueRef::Text(name.as_bytes()),
        ValueRef::Int(i64::from(day.days())),
    ]
}
