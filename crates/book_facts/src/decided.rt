ghost use Rattle.std.specs.Prelude.{◌≡◌};
ghost use Rattle.book_states.specs.Failing.{prior_of_account};

use office_rules::{Change, Facts};

/// What was decided, and the tenths of a kWh that the meter of a sale had in its month before it.
#[derive(Drop)]
pub struct Decided {
    pub change: Change,
    pub prior: u64,
}

/// The tenths that the meter of a sale had in its month, as they were read.
pub(crate) fn prior_of(facts: &Facts) -> u64
    ensures { result ≡ prior_of_account facts.now.account }
{
    match &facts.account {
        Some(account) => account.prior,
        None => 0,
    }
}
