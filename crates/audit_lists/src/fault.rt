ghost use Rattle.std.specs.Prelude.{◌≡◌};
ghost use Rattle.audit_rows.specs.declared.finding.RowKey.TheVariants.{Number};
ghost use Rattle.audit_lists.specs.Ties.{found};

use audit_rows::{Finding, Named, RowKey, Rule};
use std::alloc::AllocError;

/// Why rows are not said to be those of an office.
#[derive(Debug, Drop)]
pub enum OfficeFault {
    /// A row is no office's.
    Found(Finding),
    /// There was no memory.
    Memory,
}

impl From<Finding> for OfficeFault {
    ghost use Rattle.audit_lists.specs.declared.fault.OfficeFault.TheVariants as fault;

    ghost from_gives = { λ finding given. given ≡ fault.Found finding };

    fn from(finding: Finding) -> OfficeFault {
        OfficeFault::Found(finding)
    }
}

impl From<AllocError> for OfficeFault {
    ghost use Rattle.audit_lists.specs.declared.fault.OfficeFault.TheVariants as fault;

    ghost from_gives = { λ _ given. given ≡ fault.Memory };

    fn from(_error: AllocError) -> OfficeFault {
        OfficeFault::Memory
    }
}

/// The row, as one that breaks this rule.
pub(crate) fn found<T: Named>(row: &T, rule: Rule) -> Finding
    ensures { result ≡ found T.name rule (T.key row.now) }
{
    Finding {
        table: T::table(),
        rule,
        row: row.key(),
    }
}

/// The row of this number, as one that breaks this rule.
pub(crate) fn found_number<T: Named>(number: u64, rule: Rule) -> Finding
    ensures { result ≡ found T.name rule (Number number) }
{
    Finding {
        table: T::table(),
        rule,
        row: RowKey::Number(number),
    }
}
