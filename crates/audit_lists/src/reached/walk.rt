//! Sales gone through in turn.

ghost use Rattle.std.specs.Prelude.{◌≡◌, ◌↔◌, ◌++◌, [], ◌∷◌, ℕ, List, IfErr, IsTrue, OnOk, take};
ghost use Rattle.vend_core.specs.Law.Reached.{EachAfter, IsGrantedAfter};
ghost use Rattle.office_rules.specs.Office.{IsOffice, Office};
ghost use Rattle.office_rules.specs.declared.office.sale.Sale.{Sale};
ghost use Rattle.audit_rows.specs.declared.finding.Rule.{Rule as Rules};
ghost use Rattle.audit_lists.specs.reached.Finds.{AreRowsOfOffice, Keeps, granting_rules};
ghost use Rattle.audit_lists.specs.reached.Prices.{AreListed};
ghost use Rattle.audit_lists.specs.reached.Walk.{FindsRule, IsWalked, TellsSale};

use crate::fault::{OfficeFault, found};
use crate::reached::before::{has_fresh_tid, is_under_present_base};
use crate::reached::listed::{ListedSteps, listed_steps};
use crate::reached::prices::is_bought;
use crate::reached::sales::{is_in_open_shift, is_in_own_shift, is_of_class_zero};
use crate::reached::walked::Walked;
use audit_rows::{OfficeRows, Rule};
use office_rules::{Sale, Shift};
use std::alloc::Global;

// The first rule that is broken, of some and one more, which is kept or not.
fn first_of(broken: Option<Rule>, rule: Rule, kept: bool) -> Option<Rule>
    ensures { (rules : List Rules) (o : Office) (earlier : List Sale) (s : Sale)
        → FindsRule rules o earlier s broken → (IsTrue kept ↔ Keeps rule o earlier s)
        → FindsRule (rules ++ rule ∷ []) o earlier s result }
{
    match broken {
        Some(broken) => Some(broken),
        None => {
            if kept {
                return None;
            }
            Some(rule)
        }
    }
}

// The first rule that a sale breaks, after those that were looked at.
fn broken_rule<'a>(
    shifts: &[Shift],
    listed: &[ListedSteps],
    walked: &Walked<'a>,
    sale: &'a Sale,
) -> Option<Rule>
    ensures { (o : Office) (at : ℕ) → IsOffice o → o.shifts ≡ shifts.now
        → AreListed o listed.now → IsWalked o.shifts (take at o.sales) walked.now
        → FindsRule granting_rules o (take at o.sales) sale.now result }
{
    let sold = &walked.gathered;
    let broken = first_of(None, Rule::Operator, is_in_own_shift(shifts, sale));
    let broken = first_of(broken, Rule::Order, is_in_open_shift(&walked.lasts, sale));
    let broken = first_of(broken, Rule::Base, is_under_present_base(sold, sale));
    let broken = first_of(broken, Rule::Identifier, has_fresh_tid(sold, sale));
    let broken = first_of(broken, Rule::Price, is_bought(listed, sold, sale));
    first_of(broken, Rule::Token, is_of_class_zero(&sale.digits))
}

/// Nothing where each sale is one that requests may have led to.
///
/// # Errors
/// `OfficeFault::Found` with the first that is not, `OfficeFault::Memory` if there is no memory.
pub(crate) fn test_sales(alloc: Global, rows: &OfficeRows) -> Result<(), OfficeFault>
    ensures passes { OnOk result ((o : Office) → AreRowsOfOffice rows.now o
        → EachAfter (IsGrantedAfter o) o.sales) }
    ensures found { IfErr result (TellsSale rows.now) }
{
    let shifts = rows.shifts.as_slice();
    let sales = rows.sales.as_slice();
    if sales.is_empty() {
        return Ok(());
    }
    let listed = listed_steps(alloc, rows)?;
    let mut walked = Walked::new(alloc);
    'sales: for at in 0..sales.len() {
        let sale = &sales[at];
        match broken_rule(shifts, &listed, &walked, sale) {
            Some(rule) => return Err(OfficeFault::Found(found(sale, rule))),
            None => walked.add(shifts, sale)?,
        }
    }
    Ok(())
}
