ghost use Rattle.std.specs.Prelude.{◌≡◌, false, IsTrue, IfErr, OnOk, OnErr};
ghost use Rattle.sqlite_trees.specs.Tree.{Trees};
ghost use Rattle.sqlite.specs.Effect.{Database};
ghost use Rattle.sqlite.specs.State.{HasCleanDisk, State, Survives};
ghost use Rattle.one_table.specs.Over.{Inside, Over};
ghost use Rattle.one_table.specs.InTransaction.{IsUnderWay, WorksInside};
ghost use Rattle.one_table.specs.Committing.{FailsInside, IsUndone, HasCommitted, LeavesMade};
ghost use Rattle.one_table.specs.Committing.{Risks, TellsCommit, WasMade};

use sqlite::{Alter, Connection, Error, Transaction};

/// A change of a database, which is made inside a transaction and commits nothing by itself.
pub trait Change<S: Alter> {
    type Fault;

    // What the database is before and after it.
    ghost makes: { Self → Database → Database → Type 0 };

    // What a fault tells of the database before it.
    ghost tells: { Self → Database → Self.Fault → Type 0 };

    // Why it is not made, by what the connection was when the change began and is when it failed.
    ghost fails: { Self → State → State → Self.Fault → Type 0 };

    fn make(&self, tx: &mut Transaction<'_, S>) -> Result<(), Self::Fault>
        ensures made { WorksInside S.Store tx result (λ old new. HasCleanDisk new → IsUnderWay old
            → OnOk result (makes self.now old.now new.now)) }
        ensures told { Inside S.Store tx (λ old new. HasCleanDisk new → IsUnderWay old
            → IfErr result (tells self.now old.now)) }
        ensures refused { Inside S.Store tx (λ old new. HasCleanDisk new → IsUnderWay old
            → IfErr result (fails self.now old new)) };
}

/// Why a change is not known to be committed.
#[derive(Debug, Drop)]
pub enum CommitFault<F> {
    /// The change was not made, and nothing of it is left.
    Unmade(F),
    /// The commit failed, for want of memory or by the disk. A connection that is still open has
    /// nothing of the change. One that was shut may find the change there when it is opened again.
    InDoubt(Error),
}

/// Makes a change in a transaction of its own, and commits it once.
pub fn change_once<S: Alter, C: Change<S>>(
    conn: &mut Connection<S>,
    change: &C,
) -> Result<(), CommitFault<C::Fault>>
    requires { conn.old.in_transaction ≡ false }
    ensures committed { Over S.Store conn (λ old new. HasCleanDisk new
        → OnOk result ((db : Database) × C.makes change.now old.now db × HasCommitted db old new)) }
    ensures told { Over S.Store conn (λ old new. HasCleanDisk new
        → IfErr result (TellsCommit (C.tells change.now) old.now)) }
    ensures refused { Over S.Store conn (λ _ new. HasCleanDisk new
        → IfErr result (FailsInside S.Store (C.fails change.now) conn.old new)) }
    ensures undone { Over S.Store conn (λ old new. HasCleanDisk new
        → OnErr result (IsUndone old new)) }
    ensures doubted { Over S.Store conn (λ old new. HasCleanDisk new
        → IfErr result (WasMade S.Store (C.makes change.now) old new)) }
    ensures risks { Over S.Store conn (λ old new. IfErr result (Risks (C.makes change.now) old
        new)) }
    ensures crash { Over S.Store conn (λ old new. Survives old new (LeavesMade (C.makes
        change.now) old.now)) }
    ensures exact { Over S.Store conn (λ _ new. IsTrue new.is_open → (trees : Trees)
        → new.may_leave trees → trees ≡ new.committed.trees) }
    ensures autocommit { conn.new.in_transaction ≡ false }
{
    let mut tx = conn.transaction();
    if let Err(fault) = change.make(&mut tx) {
        return Err(CommitFault::Unmade(fault));
    }
    match tx.commit() {
        Ok(()) => Ok(()),
        Err(error) => Err(CommitFault::InDoubt(error)),
    }
}
