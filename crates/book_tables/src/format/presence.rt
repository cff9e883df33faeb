//! What a database has under the names of the office's tables.

ghost use Rattle.std.specs.Prelude.{◌≡◌, ◌↔◌, ◌≤◌, ℕ, Some, IfOk, IfSome, IsTrue};
ghost use Rattle.std.specs.List.{AllByRecursion};
ghost use Rattle.book_tables.specs.Holds.{HasOfficeOf, IsKept};
ghost use Rattle.book_tables.specs.Kept.{upto};
ghost use Rattle.book_tables.specs.row.Rows.{present_format};

use crate::format::tables::{PRESENT_FORMAT, tables_after, tables_upto};
use crate::texts::NAMES;
use one_table::inspect::{are_free, is_harmless, is_unreferred};
use one_table::recognise::{are_left_alone, stand};
use sqlite_schema::schema::Schema;
use std::alloc::{AllocError, Global};

// Whether the tables of a format are there, each as it is defined, and none of a later one; and no
// other table refers to one of the names.
fn has_format(alloc: Global, schema: &Schema, format: u32) -> Result<bool, AllocError>
    requires { format ≤ present_format }
    ensures { IfOk result (λ all. IsTrue all ↔ HasOfficeOf format schema.now) }
{
    if !is_unreferred(schema, &NAMES) {
        return Ok(false);
    }
    if !is_harmless(schema, &NAMES) {
        return Ok(false);
    }
    if !are_free(schema, tables_after(format).names) {
        return Ok(false);
    }
    has_tables(alloc, schema, format)
}

fn has_tables(alloc: Global, schema: &Schema, format: u32) -> Result<bool, AllocError>
    requires { format ≤ present_format }
    ensures { IfOk result (λ all. IsTrue all ↔ AllByRecursion (IsKept schema.now) (upto format)) }
{
    let tables = tables_upto(format);
    if !are_left_alone(schema, tables.names) {
        return Ok(false);
    }
    match stand(alloc, schema, tables.texts) {
        Ok(all) => Ok(all),
        Err(_) => Err(AllocError),
    }
}

/// The format of which a database has the tables, by its schema: the rows are not read. It is 0
/// where the database has nothing under their names, and `None` where it has anything else: some of
/// the tables, others of their names, or a table that refers to them.
///
/// # Errors
/// `AllocError` if there is no memory.
pub fn format_here(alloc: Global, schema: &Schema) -> Result<Option<u32>, AllocError>
    ensures known { IfOk result (λ found. IfSome found (λ n. n ≤ present_format)) }
    ensures found { IfOk result (λ found. (n : ℕ) → n ≤ present_format
        → (found ≡ Some n) ↔ HasOfficeOf n schema.now) }
{
    'formats: for back in 0..PRESENT_FORMAT + 1 {
        let format = PRESENT_FORMAT - back;
        if has_format(alloc, schema, format)? {
            return Ok(Some(format));
        }
    }
    Ok(None)
}
