ghost use Rattle.std.specs.Prelude.{◌≡◌, ◌-◌, ◌/◌, ◌+◌, ◌<◌, ◌≤◌, ◌≢◌, ◌↔◌, ℕ, List, Option};
ghost use Rattle.std.specs.Prelude.{Result, Contains};
ghost use Rattle.std.specs.Option.{ForSome};
ghost use Rattle.sts_fields.specs.Base.{base_date};
ghost use Rattle.sts_fields.specs.declared.fault.TidFault.{TidFault};
ghost use Rattle.sts_fields.specs.Tid.{FreshOutcome, IsFresh, IsLast, IsReserved, MaySell};
ghost use Rattle.sts_fields.specs.Tid.{fresh_after, greatest_lead, last_tid, minute_of};
ghost use Rattle.sts_fields.specs.Tid.{minutes_since};

use crate::base::{self, Base};
use crate::fault::TidFault;
use crate::moment::Moment;

/// The greatest identifier: the last minute that 24 bits count.
pub const LAST_TID: u32 = 16_777_215;

// The minutes of a day.
const DAY: u32 = 1440;

// The minute of each day that is kept for special tokens.
const RESERVED: u32 = 1;

/// The present minute under a base date: the whole minutes from the date to the moment.
pub fn minute(base: Base, moment: Moment) -> Result<u32, TidFault>
    ensures value { result ≡ minute_of base moment }
    ensures before { (result ≡ Err TidFault.BeforeBase) ↔ (moment < base_date base) }
    ensures past { (result ≡ Err TidFault.PastEnd)
        ↔ ((base_date base ≤ moment) × (last_tid < minutes_since base moment)) }
{
    let now = moment.seconds();
    let start = base::seconds(base);
    if now < start {
        return Err(TidFault::BeforeBase);
    }
    let minutes = (now - start) / 60;
    if minutes > LAST_TID {
        return Err(TidFault::PastEnd);
    }
    Ok(minutes)
}

/// The identifier that a sale in a minute takes, after the greatest one sold to the meter under
/// this base.
///
/// It is the least from the minute on, of at least 2, that is not reserved and above every one
/// sold.
pub fn next_tid(minute: u32, last: Option<u32>) -> Result<u32, TidFault>
    requires minute { minute ≤ last_tid }
    requires last { ForSome last (λ tid. tid ≤ last_tid) }
    ensures outcome { (used : List ℕ) → IsLast used last → FreshOutcome used minute result }
    ensures spent { (used : List ℕ) → IsLast used last
        → ((result ≡ Err TidFault.IdentifiersSpent) ↔ ((t : ℕ) → ¬ MaySell used minute t)) }
    ensures ahead { (used : List ℕ) → IsLast used last
        → ((result ≡ Err TidFault.IdentifierAhead)
        ↔ ((t : ℕ) × IsFresh used minute t × (minute + greatest_lead < t))) }
    ensures value { result ≡ fresh_after minute last }
{
    let lowest = match last {
        Some(tid) => minute.max(2).max(tid + 1),
        None => minute.max(2),
    };
    let tid = if lowest % DAY == RESERVED {
        lowest + 1
    } else {
        lowest
    };
    if tid > LAST_TID {
        return Err(TidFault::IdentifiersSpent);
    }
    if tid > minute + DAY {
        return Err(TidFault::IdentifierAhead);
    }
    Ok(tid)
}

/// What the rule for identifiers means: an identifier is given once, and never a reserved one or 0.
pub fn fresh_law()
    ensures never_reserved { (used : List ℕ) (now t : ℕ) → IsFresh used now t → ¬ IsReserved t }
    ensures never_zero { (used : List ℕ) (now t : ℕ) → IsFresh used now t → t ≢ 0 }
    ensures never_sold_before { (used : List ℕ) (now t : ℕ)
        → IsFresh used now t → ¬ Contains used t }
    ensures one { (used : List ℕ) (now s t : ℕ) → IsFresh used now s → IsFresh used now t → s ≡ t }

    // A sale in a minute has one outcome, and `fresh_after` computes it from the greatest
    // identifier sold.
    ensures one_outcome { (used : List ℕ) (now : ℕ) (r s : Result ℕ TidFault)
        → FreshOutcome used now r → FreshOutcome used now s → r ≡ s }
    ensures computed { (used : List ℕ) (now : ℕ) (last : Option ℕ) → IsLast used last
        → FreshOutcome used now (fresh_after now last) }
{}
