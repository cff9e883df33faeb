//! The office in memory that `selfcheck` asks.

ghost use Rattle.std.specs.Prelude.{◌≡◌, ◌⊎◌, ◌∷◌, [], None, Err, IfErr, IfOk, IfSome, OnOk};
ghost use Rattle.sqlite.specs.Steps.{over_memory};
ghost use Rattle.vend_core.specs.Law.Life.{Life};
ghost use Rattle.books.specs.Asking.{ReplyAt};
ghost use Rattle.books.specs.Keeps.{Represents, seen};
ghost use Rattle.office_rules.specs.declared.decision.refusal.Refusal.TheVariants.{Memory};
ghost use Rattle.vend_commands.specs.commands.Selfchecked.{AreGranted, IsGranted, IsPrepared};
ghost use Rattle.vend_commands.specs.commands.Selfchecked.{IsUngranted};
ghost use Rattle.vend_commands.specs.commands.Selfchecked.{IsUnprepared, add_flat};
ghost use Rattle.vend_commands.specs.commands.Selfchecked.{add_selfcheck_meter};
ghost use Rattle.vend_commands.specs.commands.Selfchecked.{clock_moment, flat_name};
ghost use Rattle.vend_commands.specs.commands.Selfchecked.{open_selfcheck_shift};
ghost use Rattle.vend_commands.specs.commands.Selfchecked.{preparing};

use crate::selfcheck::fault::SelfcheckFault;
use books::Books;
use office_rules::{Meter, MeterNo, Operator, Refusal, Request, TariffName};
use sqlite::{Alter, MemStore};
use std::alloc::Global;
use sts_fields::{Base, Moment};
use sts_token::BlockTransform;
use tariff::{Step, Steps};

/// The moment of the office's clock, in Unix seconds: 2014-01-01T00:00:30Z.
pub(crate) const NOW: i64 = 1_388_534_430;

/// Begins an office in memory that can sell to a meter: it has a tariff, a meter and an open shift.
pub(crate) fn prepare<T: BlockTransform + Drop>(
    alloc: Global,
    transform: T,
) -> Result<Books<MemStore, T>, SelfcheckFault>
    ensures prepared { IfOk result (λ books. (life : Life) × IsPrepared (T.forwards transform) life
        × Represents life (seen books)) }
    ensures unprepared { IfErr result
        (IsUnprepared (seen {g = over_memory} {h = T.BlockTransform})) }
{
    let mut books = match Books::in_memory(alloc, transform) {
        Ok(books) => books,
        Err(fault) => return Err(SelfcheckFault::Unopened(fault)),
    };
    match ready(alloc, &mut books) {
        Ok(()) => Ok(books),
        Err(refusal) => Err(SelfcheckFault::Refused(refusal)),
    }
}

// Has all granted that an office needs to sell to the meter, where there is room for the tariff.
fn ready<T: BlockTransform>(alloc: Global, books: &mut Books<MemStore, T>) -> Result<(), Refusal>
    ensures granted { OnOk result ((life : Life)
        → Represents life (seen books.old)
        → (after : Life) × AreGranted preparing life after
        × Represents after (seen books.new)) }
    ensures refused { IfErr result
        (λ why. (why ≡ Memory) ⊎ IsUngranted (seen {g = over_memory} {h = T.BlockTransform}) why) }
{
    let Some(tariff) = add_flat(alloc) else {
        return Err(Refusal::Memory);
    };
    grant(books, tariff)?;
    grant(books, add_selfcheck_meter())?;
    grant(books, open_selfcheck_shift())
}

// Has a request granted at the moment of the clock.
fn grant<S: Alter, T: BlockTransform>(
    books: &mut Books<S, T>,
    request: Request,
) -> Result<(), Refusal>
    ensures granted { OnOk result ((life : Life)
        → Represents life (seen books.old)
        → (after : Life) × IsGranted request life after
        × Represents after (seen books.new)) }
    ensures refused { IfErr result (λ why. ReplyAt clock_moment request (Err why)
        (seen books.old) (seen books.new)) }
{
    match books.ask(clock_moment(), request) {
        Ok(_) => Ok(()),
        Err(refusal) => Err(refusal),
    }
}

fn clock_moment() -> Moment
    ensures { result ≡ clock_moment }
{
    Moment::of_secs(NOW).unwrap()
}

fn flat_name() -> TariffName
    ensures { result ≡ flat_name }
{
    TariffName::read(b"flat").unwrap()
}

// The tariff of 100 cents a kWh, where there is room for its steps.
fn add_flat(alloc: Global) -> Option<Request>
    ensures { IfSome result (λ request. request ≡ add_flat) }
{
    let step = Step {
        ends: None,
        price: 100,
    };
    match Steps::read(alloc, &[step]) {
        Ok(steps) => Some(Request::AddTariff(flat_name(), steps)),
        // A tariff may have this step, so there was no room.
        Err(_) => None,
    }
}

fn add_selfcheck_meter() -> Request
    ensures { result ≡ add_selfcheck_meter }
{
    let meter = Meter {
        base: Base::Y2014,
        tariff: flat_name(),
        key: 0,
    };
    Request::AddMeter(MeterNo::read(b"12345678903").unwrap(), meter)
}

fn open_selfcheck_shift() -> Request
    ensures { result ≡ open_selfcheck_shift }
{
    Request::OpenShift(Operator::read(b"ann").unwrap())
}
