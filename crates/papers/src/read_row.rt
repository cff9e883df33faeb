ghost use Rattle.std.specs.Prelude.{◌≡◌, ◌≤◌, ◌↔◌, IsSome, IsTrue, IfOk, IfErr, IfSome, drop};
ghost use Rattle.std.specs.Prelude.{length};
ghost use Rattle.csv.specs.Records.{fields_of};
ghost use Rattle.papers.specs.File.{IsBaseText, RecordSays, RecordSaysTariff, base_text, header_of};
ghost use Rattle.papers.specs.File.{kind_of};
ghost use Rattle.papers.specs.Import.{HasCause, IsRowFault};
ghost use Rattle.papers.specs.declared.file_kind.FileKind.TheVariants as kinds;
ghost use Rattle.papers.specs.declared.file_form.FileForm.{FileForm};

use crate::file_form::FileForm;
use crate::record::field;
use crate::row_fault::RowFault;
use csv::ByteRecord;
use itoa::Buffer;
use office_rules::{Meter, MeterNo, Row, RowCause, TariffName};
use std::alloc::Global;
use sts_fields::{Base, Day};
use sts_token::read_key;
use tariff::{Steps, StepsFault};

// The row that a record says in a form, or its fault at the row of this number.
pub(crate) fn read_row(
    alloc: Global,
    form: FileForm,
    number: u32,
    raw: &ByteRecord,
) -> Result<Row, RowFault>
    ensures says { IfOk result (RecordSays form (fields_of raw.now)) }
    ensures fault { IfErr result (IsRowFault form (fields_of raw.now) number) }
{
    match form {
        FileForm::Meters => read_meter(raw).map_err(|cause| RowFault::At(number, cause)),
        FileForm::Tariffs => read_tariff(alloc, number, raw),
        FileForm::DatedTariffs => read_dated_tariff(alloc, number, raw),
    }
}

// The meter that a record says, or why it says none.
fn read_meter(raw: &ByteRecord) -> Result<Row, RowCause>
    ensures says { IfOk result (RecordSays FileForm.Meters (fields_of raw.now)) }
    ensures cause { IfErr result (HasCause FileForm.Meters (fields_of raw.now)) }
{
    if raw.len() != 4 {
        return Err(RowCause::Columns);
    }
    let Some(number) = MeterNo::read(field(raw, 0)) else {
        return Err(RowCause::Field(1));
    };
    let Some(base) = read_base(field(raw, 1)) else {
        return Err(RowCause::Field(2));
    };
    let Some(tariff) = TariffName::read(field(raw, 2)) else {
        return Err(RowCause::Field(3));
    };
    let Some(key) = read_key(field(raw, 3)) else {
        return Err(RowCause::Field(4));
    };
    Ok(Row::Meter(number, Meter { base, tariff, key }))
}

// The tariff that a record says, or its fault at the row of this number.
fn read_tariff(alloc: Global, number: u32, raw: &ByteRecord) -> Result<Row, RowFault>
    ensures says { IfOk result (RecordSays FileForm.Tariffs (fields_of raw.now)) }
    ensures fault { IfErr result (IsRowFault FileForm.Tariffs (fields_of raw.now) number) }
{
    if raw.len() != 2 {
        return Err(RowFault::At(number, RowCause::Columns));
    }
    let (name, steps) = read_steps(alloc, number, raw)?;
    Ok(Row::Tariff(name, steps))
}

// The tariff, or its steps from a day on, that a record says, or its fault at the row of this
// number.
fn read_dated_tariff(alloc: Global, number: u32, raw: &ByteRecord) -> Result<Row, RowFault>
    ensures says { IfOk result (RecordSays FileForm.DatedTariffs (fields_of raw.now)) }
    ensures fault { IfErr result (IsRowFault FileForm.DatedTariffs (fields_of raw.now) number) }
{
    if raw.len() != 3 {
        return Err(RowFault::At(number, RowCause::Columns));
    }
    let (name, steps) = read_steps(alloc, number, raw)?;
    let from = field(raw, 2);
    if from.is_empty() {
        return Ok(Row::Tariff(name, steps));
    }
    match Day::of_text(from) {
        Ok(day) => Ok(Row::Steps(name, day, steps)),
        Err(_) => Err(RowFault::At(number, RowCause::Field(3))),
    }
}

// The name and the steps that the record of a tariff begins with, or its fault at the row of this
// number, whichever form of two fields or more the record has.
fn read_steps(alloc: Global, number: u32, raw: &ByteRecord) -> Result<(TariffName, Steps), RowFault>
    requires { 2 ≤ length (fields_of raw.now) }
    ensures says { IfOk result (λ said. RecordSaysTariff (fields_of raw.now)
        (drop 2 (fields_of raw.now)) said.0 said.1) }
    ensures fault { IfErr result (λ fault. (form : FileForm) → kind_of form ≡ kinds.Tariffs
        → length (fields_of raw.now) ≡ length (header_of form)
        → IsRowFault form (fields_of raw.now) number fault) }
{
    let Some(name) = TariffName::read(field(raw, 0)) else {
        return Err(RowFault::At(number, RowCause::Field(1)));
    };
    match Steps::of_text(alloc, field(raw, 1)) {
        Ok(steps) => Ok((name, steps)),
        Err(StepsFault::Memory) => Err(RowFault::Memory),
        Err(_) => Err(RowFault::At(number, RowCause::Field(2))),
    }
}

// The base date whose year a text is.
fn read_base(text: &[u8]) -> Option<Base>
    ensures known { IsSome result ↔ IsBaseText text.now }
    ensures year { IfSome result (λ base. text.now ≡ base_text base) }
{
    if is_base(text, Base::Y1993) {
        Some(Base::Y1993)
    } else if is_base(text, Base::Y2014) {
        Some(Base::Y2014)
    } else if is_base(text, Base::Y2035) {
        Some(Base::Y2035)
    } else {
        None
    }
}

// Whether a text is the year of a base date.
fn is_base(text: &[u8], base: Base) -> bool
    ensures { IsTrue result ↔ (text.now ≡ base_text base) }
{
    text == Buffer::new().format(base.year()).as_bytes()
}
