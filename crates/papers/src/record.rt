ghost use Rattle.std.specs.Prelude.{◌≡◌, ◌≢◌, ◌↔◌, [], IsTrue, MatchOption, map, slice_index_or};
ghost use Rattle.csv.specs.Records.{fields_of};
ghost use Rattle.papers.specs.File.{header_of, kind_of};

use crate::file_form::FileForm;
use crate::file_kind::FileKind;
use csv::ByteRecord;

// The header of a file of meters.
const METERS: [&[u8]; 4] = [b"meter", b"base", b"tariff", b"key"];

// The header of a file of tariffs.
const TARIFFS: [&[u8]; 2] = [b"name", b"steps"];

// The header of a file of tariffs whose steps may have a first day.
const DATED_TARIFFS: [&[u8]; 3] = [b"name", b"steps", b"from"];

// The field at a place of a record, or nothing behind its end.
pub(crate) fn field(raw: &ByteRecord, place: usize) -> &[u8]
    ensures { result.now ≡ slice_index_or (fields_of raw.now) place [] }
{
    raw.get(place).unwrap_or(&[])
}

// The form whose header a record is, of the forms that a kind of file has.
pub(crate) fn form_of(kind: FileKind, raw: &ByteRecord) -> Option<FileForm>
    ensures { MatchOption result
        ((form : FileForm) → kind_of form ≡ kind → fields_of raw.now ≢ header_of form)
        (λ form. (kind_of form ≡ kind) × (fields_of raw.now ≡ header_of form)) }
{
    match kind {
        FileKind::Meters => headed(FileForm::Meters, raw),
        FileKind::Tariffs => {
            headed(FileForm::Tariffs, raw).or(headed(FileForm::DatedTariffs, raw))
        }
    }
}

// The form, where a record is its header.
fn headed(form: FileForm, raw: &ByteRecord) -> Option<FileForm>
    ensures { MatchOption result (fields_of raw.now ≢ header_of form)
        (λ found. (found ≡ form) × (fields_of raw.now ≡ header_of form)) }
{
    if is_header(form, raw) {
        Some(form)
    } else {
        None
    }
}

// Whether a record is the header of a form.
fn is_header(form: FileForm, raw: &ByteRecord) -> bool
    ensures { IsTrue result ↔ (fields_of raw.now ≡ header_of form) }
{
    match form {
        FileForm::Meters => has_fields(raw, &METERS),
        FileForm::Tariffs => has_fields(raw, &TARIFFS),
        FileForm::DatedTariffs => has_fields(raw, &DATED_TARIFFS),
    }
}

// Whether a record has these fields.
fn has_fields(raw: &ByteRecord, fields: &[&[u8]]) -> bool
    ensures { IsTrue result ↔ (fields_of raw.now ≡ map (λ f. f.now) fields.now) }
{
    if raw.len() != fields.len() {
        return false;
    }
    for (place, wanted) in fields.iter().enumerate() {
        if field(raw, place) != *wanted {
            return false;
        }
    }
    true
}
