//! The one transaction of a request that changes something.

ghost use Rattle.std.specs.Prelude.{◌≡◌, ◌≢◌, Err, false};
ghost use Rattle.sqlite.specs.State.{HasCleanDisk};
ghost use Rattle.one_table.specs.Over.{Over};
ghost use Rattle.one_table.specs.Committing.{HasBeen};
ghost use Rattle.book_tables.specs.reading.Reading.{HasAllTables};
ghost use Rattle.book_edits.specs.Transaction.{Commits};

use crate::changing::Editing;
use book_states::refusal_of;
use office_rules::{Edit, Refusal};
use one_table::{CommitFault, change_once};
use sqlite::{Alter, Connection};

/// Makes an edit in a transaction of its own, and commits it once. `prior` are the tenths that the
/// meter of a sale had in its month before it.
///
/// A commit that fails may be there after a crash, whatever it failed of.
pub fn commit<S: Alter>(conn: &mut Connection<S>, edit: &Edit, prior: u64) -> Result<(), Refusal>
    requires { conn.old.in_transaction ≡ false }
    ensures commits { Over S.Store conn (λ old new. HasCleanDisk new → HasAllTables old
        → Commits (HasBeen S.Store) edit.now prior result old new) }
    ensures clean { Over S.Store conn (λ old new. HasCleanDisk new → HasCleanDisk old) }
    ensures never_stopped { result ≢ Err Refusal.Stopped }
    ensures outside { conn.new.in_transaction ≡ false }
{
    // Outside a transaction an open connection has what was committed last.
    let _settled = conn.is_autocommit();
    match change_once(conn, &Editing { edit, prior }) {
        Ok(()) => Ok(()),
        Err(CommitFault::Unmade(error)) => Err(refusal_of(error)),
        Err(CommitFault::InDoubt(_)) => Err(Refusal::Store),
    }
}
