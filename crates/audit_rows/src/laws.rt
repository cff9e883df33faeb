//! What holds of a database whose tables were read whole.

ghost use Rattle.std.specs.Prelude.{◌≡◌, ◌≤◌, ℕ};
ghost use Rattle.sqlite.specs.Effect.{Database, IsDatabase};
ghost use Rattle.office_rules.specs.Office.{IsOffice, Office, empty_office};
ghost use Rattle.book_tables.specs.Holds.{HasOfficeOf, StandsFor};
ghost use Rattle.book_tables.specs.Stands.{AreMembersOf};
ghost use Rattle.book_tables.specs.format.Format.{TellsFormat};
ghost use Rattle.book_tables.specs.row.Rows.{Rows, present_format};
ghost use Rattle.audit_rows.specs.AllRows.{HasAllRows, KeepRules, with_totals};
ghost use Rattle.audit_rows.specs.Breaks.{Breaks};
ghost use Rattle.audit_rows.specs.Fails.{HasNoFormat};
ghost use Rattle.audit_rows.specs.Tables.{tables_of};
ghost use Rattle.audit_rows.specs.Order.{AreKeptInOrder, HaveAllColumns};
ghost use Rattle.audit_rows.specs.declared.finding.Finding.{Finding};

use book_tables::stands_law;
use sts_fields::{amount_law, calendar_law};

/// A database of which a row by itself is none of an office's stands for no office, nor does one
/// whose tables are of no format.
pub fn rows_law()
    ensures breaks { (n : ℕ) (f : Finding) (db : Database) (o : Office)
        → Breaks (tables_of n) f db → StandsFor db o → ⊥ }
    ensures no_format { (db : Database) (o : Office) → HasNoFormat db → StandsFor db o → ⊥ }
{
    amount_law();
    calendar_law();
}

/// A database whose tables were read whole stands for the office that has just these rows, and for
/// no other.
pub fn stored_law()
    // The one whose members the rows are that were read, in whatever order: where SQLite keeps rows
    // in the order of their numbers, and no row of a shift lacks a column.
    ensures stands { (n : ℕ) (db : Database) (rows : Rows) (o : Office)
        → n ≤ present_format → IsDatabase db → HasOfficeOf n db.schema → TellsFormat n db
        → AreKeptInOrder db → (1 ≤ n → HaveAllColumns db) → HasAllRows n db rows
        → IsOffice o → AreMembersOf rows o → (n ≡ 0 → o ≡ empty_office) → StandsFor db o }

    // No other: the rows that were read are the members of any office that it stands for, with
    // totals of which the first format has no tables.
    ensures only { (n : ℕ) (db : Database) (rows : Rows) (o : Office)
        → 1 ≤ n → n ≤ present_format → HasOfficeOf n db.schema → HasAllRows n db rows
        → KeepRules rows → StandsFor db o
        → ((totals : Rows) × AreMembersOf (with_totals rows totals) o)
        × (2 ≤ n → AreMembersOf rows o) }
{
    stands_law();
}
