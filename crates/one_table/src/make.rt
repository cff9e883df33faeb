//! CREATE TABLE inside a transaction: what it makes, and what it leaves as it was.
ghost use Rattle.std.specs.Prelude.{◌≡◌, ◌<◌, ◌⊎◌, true, List, [], Ok, IfErr, OnOk, IsTrue, map};
ghost use Rattle.std.specs.Prelude.{length};
ghost use Rattle.std.specs.List.{list_all};
ghost use Rattle.sqlite.specs.Effect.{IsDatabase};
ghost use Rattle.one_table.specs.Over.{Inside};
ghost use Rattle.sqlite.specs.State.{HasCleanDisk};
ghost use Rattle.sqlite_resolve.specs.Compile.{table_defined_by};
ghost use Rattle.sqlite_schema.specs.declared.schema.Table.{Table};
ghost use Rattle.one_table.specs.InTransaction.{FailsToRun, StaysInside, WorksInside};
ghost use Rattle.one_table.specs.Making.{is_creation, AreDefined, FailsToMake, MakesTable};
ghost use Rattle.one_table.specs.Making.{MakesTables};

use crate::writing::run;
use sqlite::{Alter, Error, Transaction};

/// Makes the table that a text defines.
fn create_table<S: Alter>(tx: &mut Transaction<'_, S>, text: &str) -> Result<(), Error>
    requires { is_creation text.now ≡ true }
    ensures added { WorksInside S.Store tx result (λ old new. HasCleanDisk new → (t : Table)
        → table_defined_by text.now ≡ Ok t → OnOk result (MakesTable t old.now new.now)) }
    ensures inside { Inside S.Store tx (λ old new. HasCleanDisk new
        → OnOk result (StaysInside old new)) }
    ensures refused { Inside S.Store tx (λ old new. HasCleanDisk new
        → IfErr result (FailsToRun text.now [] old new)) }
{
    run(tx, text, &[])
}

/// Makes the tables that the texts define, one after the other.
///
/// Other tables stay where they are, with their rows, whatever they are. The tables that were made
/// before an error go with the transaction, which the caller drops.
///
/// # Errors
/// `Error::SqliteFailure` if a name is taken, the store refuses or fails, or memory runs out.
pub fn create_tables<S: Alter>(tx: &mut Transaction<'_, S>, texts: &[&str]) -> Result<(), Error>
    requires some { 0 < length texts.now }
    requires creations { list_all (λ t. is_creation t.now) texts.now ≡ true }
    ensures added { WorksInside S.Store tx result (λ old new. HasCleanDisk new → (IsTrue old.is_open
        → IsDatabase old.now) → (ts : List Table) → AreDefined (map (λ t. t.now) texts.now) ts
        → OnOk result (MakesTables ts old.now new.now)) }
    ensures inside { Inside S.Store tx (λ old new. HasCleanDisk new
        → OnOk result (StaysInside old new)) }
    ensures refused { Inside S.Store tx (λ old new. HasCleanDisk new
        → IfErr result (FailsToMake S.Store (map (λ t. t.now) texts.now) old new)) }
{
    'texts: for text in texts {
        create_table(tx, text)?;
    }
    Ok(())
}
