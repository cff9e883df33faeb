ghost use Rattle.std.specs.Prelude.{◌≡◌, ◌++◌, ℕ, All, Contains, List, Bool, false};
ghost use Rattle.papers.specs.Export.{IsPlainField, export_fields, export_of, plain_record};
ghost use Rattle.papers.specs.Export.{sale_record};
ghost use Rattle.papers.specs.File.{AreFileRecords, Fields};
ghost use Rattle.papers.specs.Import.{AreRows, FileHasFault, IsFirstFault};
ghost use Rattle.papers.specs.declared.file_kind.FileKind.{FileKind};
ghost use Rattle.office_rules.specs.Office.{IsOffice, Office};
ghost use Rattle.office_rules.specs.declared.office.row.Row.{Row};
ghost use Rattle.office_rules.specs.declared.decision.row_cause.RowCause.{RowCause};
ghost use Rattle.office_rules.specs.declared.office.sale.Sale.{Sale};

use crate::receipts::RECEIPT_ROOM;
use sts_fields::{amount_law, day_law};
use tariff::steps_text_law;

/// What a file of rows means: it has one list of records, and they have one list of rows or one
/// first fault, and never both.
pub fn import_law()
    ensures one_list { (bytes : List ℕ) (a b : List Fields)
        → AreFileRecords bytes a → AreFileRecords bytes b → a ≡ b }
    ensures one_rows { (kind : FileKind) (records : List Fields) (a b : List Row)
        → AreRows kind records a → AreRows kind records b → a ≡ b }
    ensures one_fault { (kind : FileKind) (records : List Fields) (n m : ℕ) (c d : RowCause)
        → IsFirstFault kind records n c → IsFirstFault kind records m d → (n ≡ m) × (c ≡ d) }
    ensures never_both { (kind : FileKind) (records : List Fields) (rows : List Row)
        (number : ℕ) (cause : RowCause)
        → AreRows kind records rows → ¬ FileHasFault kind records number cause }
{
    steps_text_law();
    day_law();
}

/// What an export in pages means: the first one, with the header where it is asked for, and then
/// the others without are the export of all sales.
pub fn export_law()
    ensures pages { (header : Bool) (front back : List Sale)
        → export_of header (front ++ back) ≡ export_of header front ++ export_of false back }
{}

/// What a record of an export is: the fields of an office's sale are letters, digits and hyphens,
/// so none of them needs quotes, and they stand as they are between commas.
pub fn export_fields_law()
    ensures plain { (o : Office) (s : Sale)
        → IsOffice o → Contains o.sales s → All IsPlainField (export_fields s) }
    ensures unquoted { (o : Office) (s : Sale)
        → IsOffice o → Contains o.sales s → sale_record s ≡ plain_record (export_fields s) }
{
    amount_law();
}

/// A receipt has at most the room that `receipt_in_place` gives it.
pub fn receipt_law()
    ensures room { RECEIPT_ROOM ≡ 192 }
{}
