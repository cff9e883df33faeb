//! What holds of a database of whose rows there is a finding, and of one of which there is none.

ghost use Rattle.std.specs.Prelude.{◌≤◌, ℕ};
ghost use Rattle.sqlite.specs.Effect.{Database};
ghost use Rattle.office_rules.specs.Office.{Office};
ghost use Rattle.book_tables.specs.Holds.{HasOfficeOf, StandsFor};
ghost use Rattle.book_tables.specs.row.Rows.{present_format};
ghost use Rattle.audit_rows.specs.AllRows.{IsReadAs};
ghost use Rattle.audit_rows.specs.Entries.{rows_of};
ghost use Rattle.audit_rows.specs.declared.finding.Finding.{Finding};
ghost use Rattle.audit_rows.specs.declared.office_rows.OfficeRows.{OfficeRows};
ghost use Rattle.audit_lists.specs.Ties.{AreKept};
ghost use Rattle.audit_lists.specs.Told.{BreaksOffice, ShowOffice, rules_of};

use audit_rows::stored_law;

/// A database of whose rows there is a finding stands for no office. Where its rows keep all rules,
/// they are an office's.
pub fn office_law()
    ensures none { (n : ℕ) (db : Database) (rows : OfficeRows) (f : Finding) (o : Office)
        → 1 ≤ n → n ≤ present_format → HasOfficeOf n db.schema → IsReadAs n db (rows_of rows)
        → BreaksOffice n rows f → StandsFor db o → ⊥ }
    ensures shows { (n : ℕ) (db : Database) (rows : OfficeRows) → IsReadAs n db (rows_of rows)
        → AreKept (rules_of n rows) → ShowOffice n (rows_of rows) }
{
    stored_law();
}
