ghost use Rattle.std.specs.Prelude.{◌≡◌, false, IsTrue, IfErr, OnOk, OnErr};
ghost use Rattle.sqlite.specs.State.{Fails, HasCleanDisk, IsUnchanged, Survives};
ghost use Rattle.one_table.specs.Over.{Over};
ghost use Rattle.one_table.specs.Answer.{IsLeft};

use sqlite::{Alter, Connection, Error};

// The text of no statement: any open connection takes it, whatever its tables, and it has nothing
// to copy.
const NOTHING: &str = "";

/// Tests that a connection is open, which its schema does not tell: of a connection that is shut
/// each table seems to be missing.
///
/// # Errors
/// `Error::SqliteFailure` if the connection is shut, or there is no memory for a text.
pub fn test_open<S: Alter>(conn: &mut Connection<S>) -> Result<(), Error>
    ensures open { Over S.Store conn (λ old new. HasCleanDisk new
        → OnOk result (IsTrue old.is_open)) }
    ensures same { Over S.Store conn (λ old new. HasCleanDisk new
        → OnOk result (IsUnchanged old new)) }
    ensures kept { Over S.Store conn (λ old new. HasCleanDisk new → OnErr result (IsLeft old new)) }
    ensures faults { Over S.Store conn (λ old new. HasCleanDisk new
        → IfErr result (Fails old new ⊥)) }
    ensures mode { conn.old.in_transaction ≡ false → conn.new.in_transaction ≡ false }
    ensures survives { Over S.Store conn (λ old new. Survives old new (λ _. ⊥)) }
{
    match conn.prepare(NOTHING) {
        Ok(_) => Ok(()),
        Err(error) => Err(error),
    }
}
