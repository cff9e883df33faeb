//! What is decided by what the tables hold.

ghost use Rattle.std.specs.Prelude.{◌≡◌, ◌≢◌, ◌+◌, Err, IfErr, IfOk, false, length};
ghost use Rattle.sqlite.specs.State.{HasCleanDisk};
ghost use Rattle.one_table.specs.Over.{Over};
ghost use Rattle.office_rules.specs.Decision.{decision};
ghost use Rattle.office_rules.specs.Decision.Facts.{AreFacts, IsUnlessMemory};
ghost use Rattle.office_rules.specs.Office.{Office};
ghost use Rattle.office_decisions.specs.OverFacts.{decision_on};
ghost use Rattle.book_tables.specs.reading.Reading.{HasAllTables};
ghost use Rattle.book_states.specs.Failing.{IsChangeRead, RefusesUnchanged, prior_of_account};
ghost use Rattle.book_states.specs.Stores.{Stores};
ghost use Rattle.book_states.specs.Same.{ChangesNothing};
ghost use Rattle.book_facts.specs.Deciding.{IsDecided, change_in};

use crate::decided::{Decided, prior_of};
use crate::facts::facts_of;
use book_states::refusal_of;
use office_decisions::decide;
use office_rules::{Facts, Refusal, Stamped};
use sqlite::{Alter, Connection};
use std::alloc::Global;
use sts_token::BlockTransform;

/// What a request changes and its answer, by what the tables hold. Nothing is changed yet.
///
/// # Errors
/// The refusals of the rules; `Store` and `Memory`.
pub fn decision_of<S: Alter, T: BlockTransform>(
    alloc: Global,
    conn: &mut Connection<S>,
    transform: &T,
    at: &Stamped,
    next_number: u64,
) -> Result<Decided, Refusal>
    requires { conn.old.in_transaction ≡ false }
    ensures decides { Over S.Store conn (λ old new. HasCleanDisk new → (o : Office) → Stores old o
        → next_number ≡ length o.sales + 1
        → IsDecided (T.forwards transform.now) o at.now (change_in result)) }
    ensures nothing { Over S.Store conn (λ old new. HasCleanDisk new → HasAllTables old
        → ChangesNothing old new) }
    ensures failures { Over S.Store conn (λ old new. HasCleanDisk new → HasAllTables old
        → IfErr result
        (RefusesUnchanged (T.forwards transform.now) at.now next_number old new)) }
    ensures read { Over S.Store conn (λ old new. HasCleanDisk new
        → IfOk result (λ decided. IsChangeRead (T.forwards transform.now) at.now next_number old
        decided.change decided.prior)) }
    ensures clean { Over S.Store conn (λ old new. HasCleanDisk new → HasCleanDisk old) }
    ensures never_stopped { result ≢ Err Refusal.Stopped }
    ensures outside { conn.new.in_transaction ≡ false }
{
    // Outside a transaction an open connection has what was committed last.
    let _settled = conn.is_autocommit();
    match facts_of(alloc, conn, at, next_number.saturating_sub(1)) {
        Ok(facts) => decided_by(alloc, transform, &facts, at),
        Err(error) => Err(refusal_of(error)),
    }
}

// What the facts decide. A decision is large: in a function of its own it is written where the
// caller wants it.
#[inline(never)]
fn decided_by<T: BlockTransform>(
    alloc: Global,
    transform: &T,
    facts: &Facts,
    at: &Stamped,
) -> Result<Decided, Refusal>
    ensures exact { IsUnlessMemory (change_in result)
        (decision_on (T.forwards transform.now) at.now facts.now) }
    ensures decided { (o : Office) → AreFacts o at.now facts.now
        → IsUnlessMemory (change_in result) (decision (T.forwards transform.now) o at.now) }
    ensures prior { IfOk result (λ decided.
        decided.prior ≡ prior_of_account facts.now.account) }
    ensures no_store { (result ≢ Err Refusal.Store) × (result ≢ Err Refusal.Stopped) }
{
    match decide(alloc, transform, facts, at) {
        Ok(change) => Ok(Decided {
            change,
            prior: prior_of(facts),
        }),
        Err(refusal) => Err(refusal),
    }
}
