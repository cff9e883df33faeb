//! What a row of an answer shows, where it may show nothing.

ghost use Rattle.std.specs.Prelude.{⊤};
ghost use Rattle.audit_rows.specs.Whole.{Sees};

use book_tables::Record;
use one_table::{FromRow, ReadFault};
use sqlite::Row;

/// The record that a row shows, or the row as it stands where it shows none.
#[derive(Drop)]
pub(crate) enum Seen<T> {
    Whole(T),
    False(Row),
}

impl<T: Record> FromRow for Seen<T> {
    ghost reads_as = { Sees T.Record.shown T.Record.keeps };

    ghost is_readable = { λ _. ⊤ };

    fn from_row(row: &Row) -> Result<Seen<T>, ReadFault> {
        match T::of_row(row) {
            Some(record) => Ok(Seen::Whole(record)),
            None => Ok(Seen::False(row.copy()?)),
        }
    }
}
