//! The number of the format of the tables.

ghost use Rattle.std.specs.Prelude.{◌<◌, ◌^◌, IsTrue, IfOk};
ghost use Rattle.sqlite.specs.Effect.{IsDatabase};
ghost use Rattle.sqlite.specs.State.{HasCleanDisk};
ghost use Rattle.one_table.specs.Over.{Over};
ghost use Rattle.book_tables.specs.format.Format.{IsFormatOf};
ghost use Rattle.book_tables.specs.Kept.{about_kept};
ghost use Rattle.book_tables.specs.row.ReadBack.{ReadsBack};
ghost use Rattle.book_tables.specs.row.Rows.{shown_format};
ghost use Rattle.book_tables.specs.reading.Reading.{HasTable, ReadsTable};

use crate::error::TableError;
use crate::row::cells;
use crate::texts::FORMAT;
use one_table::{FromRow, ReadFault, read_rows};
use sqlite::{Alter, Connection, Row};
use std::alloc::Global;

// The number of a format, beside the number 1 of its row.
fn format_of(row: &Row) -> Option<u32>
    ensures { ReadsBack shown_format (λ n. n < 2 ^ 32) row.now result }
{
    if row.column_count() != 2 {
        return None;
    }
    cells::between_at(row, 0, 1, 1)?;
    cells::word_at(row, 1)
}

// What a row of the table tells: a format, or none.
#[derive(Drop)]
pub(crate) struct ToldFormat {
    pub(crate) format: Option<u32>,
}

impl FromRow for ToldFormat {
    ghost use Rattle.std.specs.Prelude.{◌<◌, ◌^◌, ⊤};
    ghost use Rattle.book_tables.specs.row.Rows.{shown_format};
    ghost use Rattle.book_tables.specs.row.ReadBack.{ReadsBack};

    ghost reads_as = { λ row told. ReadsBack shown_format (λ n. n < 2 ^ 32) row told.format };

    ghost is_readable = { λ _. ⊤ };

    fn from_row(row: &Row) -> Result<ToldFormat, ReadFault> {
        Ok(ToldFormat {
            format: format_of(row),
        })
    }
}

/// The number of the format: `None` where the table `about` has no row, more than one, one whose
/// number is not 1, or one that tells no number of 32 bits.
///
/// # Errors
/// `TableError::Database` if the database refuses or fails, or memory runs out.
pub fn format_number<S: Alter>(
    alloc: Global,
    conn: &mut Connection<S>,
) -> Result<Option<u32>, TableError>
    ensures given { Over S.Store conn (λ old new. HasCleanDisk new → HasTable about_kept old
        → (IsTrue old.is_open → IsDatabase old.now) → IfOk result (IsFormatOf old.now)) }
    ensures reads { Over S.Store conn (λ old new. ReadsTable about_kept old new result) }
{
    let told: Vec<ToldFormat> = read_rows(alloc, conn, FORMAT, &[])?;
    if told.len() != 1 {
        return Ok(None);
    }
    Ok(told[0].format)
}
