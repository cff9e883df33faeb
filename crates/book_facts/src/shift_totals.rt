//! The running totals of a shift.

ghost use Rattle.std.specs.Prelude.{◌≡◌, false};
ghost use Rattle.one_table.specs.Over.{Over};
ghost use Rattle.sqlite.specs.State.{HasCleanDisk};
ghost use Rattle.office_rules.specs.Office.{Office};
ghost use Rattle.book_states.specs.Stores.{Stores};
ghost use Rattle.book_facts.specs.Looking.{TellsTables};
ghost use Rattle.book_facts.specs.Totals.{AreTotalsIn, AreTotalsSpoilt, GivesTotals};

use crate::facts::shifts::totals_of;
use book_states::refusal_of;
use book_tables::Totals;
use office_rules::Refusal;
use sqlite::{Alter, Connection};

/// The totals that the tables have of the shift of a number (1 to 10^9).
///
/// # Errors
/// `NoSuchShift`; `Store` and `Memory`.
pub fn totals<S: Alter>(conn: &mut Connection<S>, number: u32) -> Result<Totals, Refusal>
    requires { conn.old.in_transaction ≡ false }
    ensures given { Over S.Store conn (λ old new. HasCleanDisk new → (o : Office) → Stores old o
        → AreTotalsIn o number result) }
    ensures tells { Over S.Store conn (λ old new. TellsTables (λ why. why ≡ Refusal.NoSuchShift)
        (GivesTotals number) (AreTotalsSpoilt number) old new result) }
{
    // Outside a transaction an open connection has what was committed last.
    let _settled = conn.is_autocommit();
    match totals_of(conn, number) {
        Ok(Some(totals)) => Ok(totals),
        Ok(None) => Err(Refusal::NoSuchShift),
        Err(error) => Err(refusal_of(error)),
    }
}
