ghost use Rattle.std.specs.Prelude.{◌≡◌, ◌%◌, ◌+◌, ◌<◌, ◌≤◌, ◌^◌, ℕ, List, IfOk, IfErr};
ghost use Rattle.std.specs.Option.{ForSome};
ghost use Rattle.sts_fields.specs.Tid.{IsLast};
ghost use Rattle.vend_ports.specs.commands.Trial.{IsRefusedBy, IsSale, IsTrial, TidOutcome};

use std::alloc::Global;
use sts_fields::{Amount, Base, Moment, TidFault, minute, next_tid};
use sts_token::{BlockTransform, Fields, write};

/// Why a trial stopped.
#[derive(Clone, Copy, Debug, PartialEq, Eq, Hash)]
pub enum TrialFault {
    /// The amount is 0, or no token can carry it.
    Amount,
    /// There is no identifier for it.
    Tid(TidFault),
    /// There was no room for the tokens; none was made.
    Memory,
}

/// Sells amounts in tenths of a kWh, one after another at a moment, to one meter that was sold
/// nothing before.
///
/// Amount i, counted from 1, has the nibble i mod 16. The tokens are those before the first amount
/// that is refused, and the fault says why that one was; its amount is tested first.
pub fn trial<T: BlockTransform>(
    alloc: Global,
    transform: &T,
    key: u64,
    base: Base,
    moment: Moment,
    amounts: &[u32],
) -> (Vec<[u8; 20]>, Option<TrialFault>)
    ensures { (tids : List ℕ) × IsTrial
        (T.forwards transform.now) key base moment amounts.now tids result.0.items result.1 }
{
    let Ok(mut tokens) = Vec::with_capacity(alloc, amounts.len()) else {
        return (Vec::new(alloc), Some(TrialFault::Memory));
    };
    let mut last = None;
    let mut nibble = 0;
    for tenths in amounts {
        nibble = (nibble + 1) % 16;
        match sell(transform, key, base, moment, last, nibble, *tenths) {
            Ok(sale) => {
                tokens.push_reserved(sale.token);
                last = Some(sale.tid);
            }
            Err(fault) => return (tokens, Some(fault)),
        }
    }
    (tokens, None)
}

// One sale of a trial.
#[derive(Clone, Copy)]
struct TrialSale {
    tid: u32,
    token: [u8; 20],
}

// The next sale, after one with the identifier in `last`.
fn sell<T: BlockTransform>(
    transform: &T,
    key: u64,
    base: Base,
    moment: Moment,
    last: Option<u32>,
    nibble: u8,
    tenths: u32,
) -> Result<TrialSale, TrialFault>
    requires nibble { nibble < 2 ^ 4 }
    requires last { ForSome last (λ tid. tid ≤ 16777215) }
    ensures sold { (used : List ℕ) (n : ℕ) → IsLast used last → nibble ≡ n % 16
        → IfOk result (λ sale. IsSale
        (T.forwards transform.now) key base moment used n tenths sale.tid sale.token) }
    ensures within { IfOk result (λ sale. sale.tid ≤ 16777215) }
    ensures refused { (used : List ℕ) → IsLast used last
        → IfErr result (IsRefusedBy base moment used tenths) }
{
    let Some(amount) = Amount::of_tenths(tenths) else {
        return Err(TrialFault::Amount);
    };
    if tenths == 0 {
        return Err(TrialFault::Amount);
    }
    let tid = match identifier(base, moment, last) {
        Ok(tid) => tid,
        Err(fault) => return Err(TrialFault::Tid(fault)),
    };
    let fields = Fields {
        rnd: nibble,
        tid,
        amount,
    };
    let token = write(transform, key, fields);
    Ok(TrialSale { tid, token })
}

// The identifier of the next sale, after one with the identifier in `last`.
fn identifier(base: Base, moment: Moment, last: Option<u32>) -> Result<u32, TidFault>
    requires { ForSome last (λ tid. tid ≤ 16777215) }
    ensures outcome { (used : List ℕ) → IsLast used last → TidOutcome base moment used result }
    ensures within { IfOk result (λ tid. tid ≤ 16777215) }
{
    let now = minute(base, moment)?;
    next_tid(now, last)
}
