//! What the findings mean of offices that requests lead to.

ghost use Rattle.std.specs.Prelude.{List};
ghost use Rattle.vend_core.specs.Law.Life.{AreLives, Life};
ghost use Rattle.vend_core.specs.Law.Reached.{IsPlausible};
ghost use Rattle.office_rules.specs.Office.{Office};
ghost use Rattle.audit_lists.specs.reached.Finds.{FindsByRequests};
ghost use Rattle.audit_rows.specs.declared.finding.Finding.{Finding};

use vend_core::reached_law;

/// If requests lead to an office, no row of it is ever found: a finding proves that none do.
pub fn honest_law()
    ensures none { (o : Office) (f : Finding) → IsPlausible o → FindsByRequests o f → ⊥ }
    ensures lives { (lives : List Life) (o : Office) (f : Finding)
        → AreLives lives o → FindsByRequests o f → ⊥ }
{
    reached_law();
}
