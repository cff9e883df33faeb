ghost use Rattle.std.specs.Prelude.{ℕ, List, Err, IfErr, OnOk, ◌≡◌, ◌∷◌, [], ◌++◌, length};
ghost use Rattle.csv.specs.Records.{fields_of};
ghost use Rattle.papers.specs.File.{AreFileRecords, Fields, kind_of};
ghost use Rattle.papers.specs.Import.{AreRowsIn, IsFault, IsReading, TakesRoom};
ghost use Rattle.papers.specs.Reader.{HasGiven};

use crate::blank::is_blank;
use crate::file_form::FileForm;
use crate::file_kind::FileKind;
use crate::read_row::read_row;
use crate::record::form_of;
use crate::row_fault::RowFault;
use csv::{ByteRecord, ByteRecordsIntoIter, ReaderBuilder};
use office_rules::{Row, RowCause, Rows};
use std::alloc::Global;

/// The meters that a file has, or its first fault (`docs/TEXTS.md`, "Meters").
///
/// # Errors
/// `RowFault::At` with the row and its cause, the header being row 0; `RowFault::Memory`.
pub fn read_meters(alloc: Global, bytes: &[u8]) -> Result<Rows, RowFault>
    ensures { (records : List Fields) × AreFileRecords bytes.now records
        × IsReading FileKind.Meters records result }
{
    read_rows(alloc, FileKind::Meters, bytes)
}

/// The tariffs that a file has, or its first fault (`docs/TEXTS.md`, "Tariffs").
///
/// # Errors
/// `RowFault::At` with the row and its cause, the header being row 0; `RowFault::Memory`.
pub fn read_tariffs(alloc: Global, bytes: &[u8]) -> Result<Rows, RowFault>
    ensures { (records : List Fields) × AreFileRecords bytes.now records
        × IsReading FileKind.Tariffs records result }
{
    read_rows(alloc, FileKind::Tariffs, bytes)
}

// The rows of a file, or its first fault.
fn read_rows(alloc: Global, kind: FileKind, bytes: &[u8]) -> Result<Rows, RowFault>
    ensures { (records : List Fields) × AreFileRecords bytes.now records
        × IsReading kind records result }
{
    if is_blank(bytes) {
        return Err(RowFault::At(0, RowCause::Header));
    }
    let mut records = records_of(alloc, bytes);
    let Some(first) = records.next() else {
        return Err(RowFault::At(0, RowCause::Header));
    };
    let Ok(first) = first else {
        return Err(RowFault::Memory);
    };
    let Some(form) = form_of(kind, &first) else {
        return Err(RowFault::At(0, RowCause::Header));
    };
    let mut rows = Vec::new(alloc);
    let mut number = 1;
    for record in records {
        let Ok(record) = record else {
            return Err(RowFault::Memory);
        };
        take_row(alloc, form, number, &record, &mut rows)?;
        number += 1;
    }
    Rows::of(rows).map_err(|_| RowFault::Memory)
}

// The records of a file, of which none was given yet.
fn records_of(alloc: Global, bytes: &[u8]) -> ByteRecordsIntoIter<&[u8]>
    ensures { HasGiven bytes.now result [] }
{
    ReaderBuilder::new()
        .has_headers(false)
        .flexible(true)
        .from_reader(alloc, bytes)
        .into_byte_records()
}

// Takes the record of the row of this number, behind the header: the row that it says is added.
fn take_row(
    alloc: Global,
    form: FileForm,
    number: u32,
    raw: &ByteRecord,
    rows: &mut Vec<Row>,
) -> Result<(), RowFault>
    ensures taken { (before : List Fields)
        → AreRowsIn form before rows.old.items → number ≡ length before
        → OnOk result (AreRowsIn form (before ++ fields_of raw.now ∷ []) rows.new.items) }
    ensures fault { (before after : List Fields)
        → AreRowsIn form before rows.old.items → number ≡ length before
        → IfErr result (IsFault (kind_of form) (before ++ fields_of raw.now ∷ after)) }
    ensures memory { result ≡ Err RowFault.Memory → TakesRoom form (fields_of raw.now) }
{
    if number as usize > Rows::MAX {
        return Err(RowFault::At(number, RowCause::TooManyRows));
    }
    let row = read_row(alloc, form, number, raw)?;
    rows.push(row).map_err(|_| RowFault::Memory)
}
