//! How the office decides a request: the tests in their order, over facts.
ghost use Rattle.std.specs.Prelude.{◌≡◌, ◌≢◌, ◌&&◌, IsSome, Ok, Err, Some, None, true, nat_lt, not};
ghost use Rattle.std.specs.Option.{option_copied};
ghost use Rattle.sts_fields.specs.Base.{base_date};
ghost use Rattle.sts_fields.specs.Day.{day_at};
ghost use Rattle.office_rules.specs.Decision.{add_meter, add_steps, add_tariff, close_shift};
ghost use Rattle.office_rules.specs.Decision.{decision, is_new, move_base, next_number};
ghost use Rattle.office_rules.specs.Decision.{open_a_shift, reprint, sell, sell_again, set_key};
ghost use Rattle.office_rules.specs.Decision.{set_tariff, withdraw_steps};
ghost use Rattle.office_rules.specs.Decision.Facts.{AreFacts, IsUnlessMemory, TakesMemory};
ghost use Rattle.office_rules.specs.Decision.Facts.{report_found};
ghost use Rattle.office_rules.specs.Office.{Office};
ghost use Rattle.office_decisions.specs.OverFacts.{decision_on};

use additions::{is_new_meter, is_new_steps, is_new_tariff};
use office_rules::{
    Answer, Change, Edit, Facts, GREATEST_COUNT, Meter, MeterAccount, MeterNo, Operator, Order,
    Refusal, Request, Sale, Sales, Shift, Stamped, TariffName,
};
use std::alloc::Global;
use sts_fields::{Base, Day, Moment, TidFault, day_of, minute, next_tid};
use sts_token::{BlockTransform, Fields, write};
use tariff::{Steps, buy};

mod additions;
mod import;

pub use additions::{same_meter, same_steps};

/// How a request is decided by these facts, of an office or of none: what changes, and the answer.
///
/// Besides the refusals of `docs/OFFICE.md` only `Refusal::Memory` comes, for want of memory, and
/// only to a request that is granted with new steps, new rows or a report, or to an import of which
/// a row is new before the first one that is refused.
pub fn decide<T: BlockTransform>(
    alloc: Global,
    transform: &T,
    facts: &Facts,
    at: &Stamped,
) -> Result<Change, Refusal>
    ensures exact { IsUnlessMemory result
        (decision_on (T.forwards transform.now) at.now facts.now) }
    ensures decided { (o : Office) → AreFacts o at.now facts.now
        → IsUnlessMemory result (decision (T.forwards transform.now) o at.now) }
    ensures memory { (o : Office) → AreFacts o at.now facts.now → result ≡ Err Refusal.Memory
        → TakesMemory o at.now.moment at.now.request }
    ensures no_store { (result ≢ Err Refusal.Store) × (result ≢ Err Refusal.Stopped) }
{
    match &at.request {
        Request::AddTariff(name, steps) => add_tariff(*name, steps, facts.tariff.as_ref()),
        Request::AddSteps(name, day, steps) => add_steps(
            *name,
            *day,
            steps,
            at.moment,
            facts.has_tariff,
            facts.dated_steps.as_ref(),
        ),
        Request::WithdrawSteps(name, day) => withdraw_steps(
            *name,
            *day,
            at.moment,
            facts.has_tariff,
            facts.dated_steps.as_ref(),
            facts.sold_since,
        ),
        Request::AddMeter(number, meter) => add_meter(
            *number,
            *meter,
            facts.meter,
            facts.has_tariff,
        ),
        Request::Import(rows) => import::import(alloc, rows, at.moment, facts.rows.as_ref()),
        Request::SetTariff(number, name) => set_tariff(
            *number,
            *name,
            facts.meter,
            facts.has_tariff,
        ),
        Request::MoveBase(number, base) => move_base(*number, *base, at.moment, facts.meter),
        Request::SetKey(number, key) => set_key(*number, *key, facts.meter, facts.has_sales),
        Request::OpenShift(operator) => open_shift(
            at.moment,
            *operator,
            facts.open_shift,
            facts.shift_count,
        ),
        Request::CloseShift(_) => close_shift(at.moment, facts.open_shift),
        Request::Sell(order) => match &facts.first_sale {
            Some(first) => sell_again(order, first),
            None => sell(
                transform,
                at,
                order,
                facts.open_shift,
                facts.account.as_ref(),
                facts.sale_count,
            ),
        },
        Request::Reprint(_) => reprint(facts.sale),
        Request::ShiftReport(_) => report(alloc, facts.report.as_ref()),
    }
}

// A granted request that changes nothing.
fn unchanged(answer: Answer) -> Result<Change, Refusal>
    ensures { result ≡ Ok (record { edit = None; answer = answer }) }
{
    Ok(Change { edit: None, answer })
}

// A granted request that makes an edit.
fn changed(edit: Edit, answer: Answer) -> Result<Change, Refusal>
    ensures { result ≡ Ok (record { edit = Some edit; answer = answer }) }
{
    Ok(Change {
        edit: Some(edit),
        answer,
    })
}

// The number of the next row, where there is room for one.
fn next_number(count: u64) -> Result<u32, Refusal>
    ensures { result ≡ next_number count }
{
    if count < GREATEST_COUNT {
        Ok((count + 1) as u32)
    } else {
        Err(Refusal::OfficeFull)
    }
}

fn add_tariff(name: TariffName, steps: &Steps, there: Option<&Steps>) -> Result<Change, Refusal>
    ensures decided { IsUnlessMemory result
        (add_tariff name steps.now (option_copied there.entry)) }
    ensures memory { result ≡ Err Refusal.Memory
        → is_new (add_tariff name steps.now (option_copied there.entry)) ≡ Ok true }
{
    if is_new_tariff(steps, there)? {
        let steps = steps.clone()?;
        changed(Edit::AddTariff(name, steps), Answer::Done)
    } else {
        unchanged(Answer::Done)
    }
}

fn add_steps(
    name: TariffName,
    day: Day,
    steps: &Steps,
    moment: Moment,
    has_tariff: bool,
    there: Option<&Steps>,
) -> Result<Change, Refusal>
    ensures decided { IsUnlessMemory result
        (add_steps name day steps.now (day_at moment) has_tariff (option_copied there.entry)) }
    ensures memory { result ≡ Err Refusal.Memory → is_new
        (add_steps name day steps.now (day_at moment) has_tariff (option_copied there.entry))
        ≡ Ok true }
{
    let today = day_of(moment);
    if is_new_steps(day, steps, today, has_tariff, there)? {
        let own = steps.clone()?;
        changed(Edit::AddSteps(name, day, own), Answer::Done)
    } else {
        unchanged(Answer::Done)
    }
}

// Steps are taken back before their day, where no sale was made on it or later.
fn withdraw_steps(
    name: TariffName,
    day: Day,
    moment: Moment,
    has_tariff: bool,
    there: Option<&Steps>,
    sold_since: bool,
) -> Result<Change, Refusal>
    ensures { result ≡ withdraw_steps
        name day (day_at moment) has_tariff (option_copied there.entry) sold_since }
{
    if !has_tariff {
        return Err(Refusal::NoTariff);
    }
    match there {
        None => unchanged(Answer::Withdrawn(0)),
        Some(_) if may_withdraw(day, day_of(moment), sold_since) => changed(
            Edit::WithdrawSteps(name, day),
            Answer::Withdrawn(1),
        ),
        Some(_) => Err(Refusal::DayPast),
    }
}

// Whether steps from a day on may be taken back, where it is today.
fn may_withdraw(day: Day, today: Day, sold_since: bool) -> bool
    ensures { result ≡ (nat_lt today day && not sold_since) }
{
    today.days() < day.days() && !sold_since
}

fn add_meter(
    number: MeterNo,
    meter: Meter,
    there: Option<Meter>,
    has_tariff: bool,
) -> Result<Change, Refusal>
    ensures { result ≡ add_meter number meter there has_tariff }
{
    if is_new_meter(&meter, there, has_tariff)? {
        changed(Edit::AddMeter(number, meter), Answer::Done)
    } else {
        unchanged(Answer::Done)
    }
}

fn set_tariff(
    number: MeterNo,
    name: TariffName,
    meter: Option<Meter>,
    has_tariff: bool,
) -> Result<Change, Refusal>
    ensures { result ≡ set_tariff number name meter has_tariff }
{
    let meter = meter.ok_or(Refusal::NoMeter)?;
    if !has_tariff {
        return Err(Refusal::NoTariff);
    }
    if meter.tariff.as_bytes() == name.as_bytes() {
        unchanged(Answer::Done)
    } else {
        changed(Edit::SetTariff(number, name), Answer::Done)
    }
}

fn move_base(
    number: MeterNo,
    base: Base,
    moment: Moment,
    meter: Option<Meter>,
) -> Result<Change, Refusal>
    ensures { result ≡ move_base number base moment meter }
{
    let present = meter.ok_or(Refusal::NoMeter)?.base;
    if present.year() == base.year() {
        return unchanged(Answer::Done);
    }
    if base.year() < present.year() {
        return Err(Refusal::NotLater);
    }
    if is_before(moment, base) {
        return Err(Refusal::BeforeBase);
    }
    changed(Edit::MoveBase(number, base), Answer::Done)
}

// Whether a moment is before a base date.
fn is_before(moment: Moment, base: Base) -> bool
    ensures { result ≡ nat_lt moment (base_date base) }
{
    matches!(minute(base, moment), Err(TidFault::BeforeBase))
}

// A meter is given a key where it has no sale: tokens of one meter are written with one key.
fn set_key(
    number: MeterNo,
    key: u64,
    meter: Option<Meter>,
    has_sales: bool,
) -> Result<Change, Refusal>
    ensures { result ≡ set_key number key meter has_sales }
{
    let present = meter.ok_or(Refusal::NoMeter)?.key;
    if present == key {
        return unchanged(Answer::Done);
    }
    if has_sales {
        return Err(Refusal::HasSales);
    }
    changed(Edit::SetKey(number, key), Answer::Done)
}

fn open_shift(
    moment: Moment,
    operator: Operator,
    there: Option<Shift>,
    count: u64,
) -> Result<Change, Refusal>
    ensures { result ≡ open_a_shift moment operator there count }
{
    if there.is_some() {
        return Err(Refusal::ShiftOpen);
    }
    let number = next_number(count)?;
    let shift = Shift {
        number,
        operator,
        opened: moment,
        closed: None,
    };
    changed(Edit::OpenShift(shift), Answer::Opened(number))
}

fn close_shift(moment: Moment, there: Option<Shift>) -> Result<Change, Refusal>
    ensures { result ≡ close_shift moment there }
{
    let shift = there.ok_or(Refusal::NoShift)?;
    changed(
        Edit::CloseShift(shift.number, moment),
        Answer::Closed(shift.number),
    )
}

// The answer to an order under a ref that was used before.
fn sell_again(order: &Order, first: &Sale) -> Result<Change, Refusal>
    ensures { result ≡ sell_again order.now first.now }
{
    if first.meter.as_bytes() == order.meter.as_bytes()
        && first.tender.cents() == order.tender.cents()
    {
        unchanged(Answer::Sold(*first))
    } else {
        Err(Refusal::RefReused)
    }
}

fn sell<T: BlockTransform>(
    transform: &T,
    at: &Stamped,
    order: &Order,
    open_shift: Option<Shift>,
    account: Option<&MeterAccount>,
    count: u64,
) -> Result<Change, Refusal>
    ensures { result ≡ sell (T.forwards transform.now) at.now.moment at.now.nibble order.now
        open_shift (option_copied account.entry) count }
{
    let shift = open_shift.ok_or(Refusal::NoShift)?;
    let account = account.ok_or(Refusal::NoMeter)?;
    let meter = account.meter;
    let now = minute(meter.base, at.moment)?;
    let tid = next_tid(now, account.last)?;
    let bought = buy(&account.steps, account.prior, order.tender).ok_or(Refusal::TooLittle)?;
    let tenths = bought.tenths;
    let number = next_number(count)?;
    let fields = Fields {
        rnd: at.nibble,
        tid,
        amount: tenths,
    };
    let sale = &Sale {
        number,
        moment: at.moment,
        shift: shift.number,
        operator: order.operator,
        order_ref: order.order_ref,
        meter: order.meter,
        base: meter.base,
        tid,
        rnd: at.nibble,
        tenths,
        price: bought.price,
        tender: order.tender,
        digits: write(transform, meter.key, fields),
    };
    changed(Edit::AddSale(*sale), Answer::Sold(*sale))
}

fn reprint(sale: Option<Sale>) -> Result<Change, Refusal>
    ensures { result ≡ reprint sale }
{
    let sale = sale.ok_or(Refusal::NoSale)?;
    unchanged(Answer::Reprinted(sale))
}

fn report(alloc: Global, found: Option<&(Shift, Sales)>) -> Result<Change, Refusal>
    ensures decided { IsUnlessMemory result (report_found (option_copied found.entry)) }
    ensures memory { result ≡ Err Refusal.Memory → IsSome (option_copied found.entry) }
{
    let (shift, sales) = found.ok_or(Refusal::NoSuchShift)?;
    let sales = Vec::from_slice(alloc, sales.as_slice())?;
    unchanged(Answer::Report(*shift, Sales::of(sales)))
}
