//! The sale of a ref.

ghost use Rattle.std.specs.Prelude.{◌≡◌, IfErr};
ghost use Rattle.sqlite.specs.State.{IsUnchanged};
ghost use Rattle.one_table.specs.Over.{Over};
ghost use Rattle.office_rules.specs.Office.Lookup.{sale_of_ref};
ghost use Rattle.book_facts.specs.Lookups.{IsOfRules, sale_found};
ghost use Rattle.book_facts.specs.Looking.{LooksUpByRules};
ghost use Rattle.book_facts.specs.LookupsSeen.{IsSaleFoundSeen, IsSaleFoundSpoilt};

use book_states::Found;
use book_tables::TableError;
use book_tables::reading::sales;
use office_rules::{Operator, Ref, Refusal, Sale};
use sqlite::{Alter, Connection};

/// The sale that the operator made under the ref.
pub(crate) fn sale_under<S: Alter>(
    conn: &mut Connection<S>,
    operator: &Operator,
    order_ref: &Ref,
) -> Result<Result<Found, Refusal>, TableError>
    ensures { Over S.Store conn (λ old new. LooksUpByRules IsUnchanged
        (λ o found. found ≡ sale_found (sale_of_ref o operator.now order_ref.now))
        (IsSaleFoundSeen operator.now order_ref.now) (IsSaleFoundSpoilt operator.now order_ref.now)
        old new result) }
{
    let there = sales::sale_of_ref(conn, operator, order_ref)?;
    Ok(sale_or_none(there))
}

/// The sale that was looked up, where there is one.
pub(crate) fn sale_or_none(there: Option<Sale>) -> Result<Found, Refusal>
    ensures value { result ≡ sale_found there }
    ensures rules { IfErr result IsOfRules }
{
    match there {
        Some(sale) => Ok(Found::Sale(sale)),
        None => Err(Refusal::NoSale),
    }
}
