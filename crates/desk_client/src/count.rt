ghost use Rattle.std.specs.Prelude.{◌≡◌, ◌≤◌, codes};
ghost use Rattle.records.specs.Front.{IsFound};
ghost use Rattle.desk_messages.specs.reply.Records.{count_text};
ghost use Rattle.asks.specs.Value.{IsTargetNumber};
ghost use Rattle.office_rules.specs.Office.Rows.{greatest_rows};

use crate::columns::RowCell;
use desk_messages::fields;
use office_rules::Rows;
use records::read_whole;

// How many rows an import added, as a text tells it.
pub(crate) fn read_added(text: &[u8]) -> Option<u32>
    ensures { IsFound (λ count. (count ≤ greatest_rows)
        × (text.now ≡ count_text (codes "added") count)) result }
{
    match read_whole::<(u32, ())>(text, &fields::ADDED) {
        Some((count, ())) if count <= Rows::MAX as u32 => Some(count),
        _ => None,
    }
}

// How many lists of steps were withdrawn, as a text tells it.
pub(crate) fn read_withdrawn(text: &[u8]) -> Option<u32>
    ensures { IsFound (λ count. (count ≤ 1)
        × (text.now ≡ count_text (codes "withdrawn") count)) result }
{
    match read_whole::<(u32, ())>(text, &fields::WITHDRAWN) {
        Some((count, ())) if count <= 1 => Some(count),
        _ => None,
    }
}

// The number of a shift that a text tells.
pub(crate) fn read_shift(text: &[u8]) -> Option<u32>
    ensures { IsFound (λ number. IsTargetNumber number
        × (text.now ≡ count_text (codes "shift") number)) result }
{
    match read_whole::<(RowCell, ())>(text, &fields::SHIFT) {
        Some((number, ())) => Some(number.of),
        None => None,
    }
}
