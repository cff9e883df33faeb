//! An office in vectors, and the life that it lives by what it is asked.
ghost use Rattle.std.specs.Prelude.{◌≡◌, ◌∷◌, [], IfOk, IfSome, IsTrue, Ok};
ghost use Rattle.office_rules.specs.Law.Handed.{sales_of};
ghost use Rattle.office_rules.specs.Office.{Office};
ghost use Rattle.vend_core.specs.Lists.{IsServed, office_of, transform_of};
ghost use Rattle.core_tests.specs.Lived.{HasHanded, HasKey, HasSold, IsLived};

use office_lines::values::{flat, operator, order, stamped, tariff_name};
use office_rules::{Answer, Meter, MeterNo, Reply, Request, Sale, Stamped};
use std::alloc::Global;
use std::test::Fail;
use sts_fields::{Base, Moment};
use sts_token::BlockTransform;
use vend_core::{Lists, history_law, life_law};

/// A life begins with the office that the lists keep.
pub(crate) fn opens<T: BlockTransform>(lists: &Lists<T>)
    ensures { IsLived (office_of lists.now) (T.forwards (transform_of lists.now))
        (office_of lists.now) }
{
    life_law();
}

/// Asks the office: the life goes on, and hands out the sales of the reply.
pub(crate) fn ask<T: BlockTransform>(lists: &mut Lists<T>, at: &Stamped) -> Reply
    ensures served { IsServed (T.forwards (transform_of lists.old))
        (office_of lists.old) at.now result (office_of lists.new) }
    ensures replied { (start : Office)
        → IsLived start (T.forwards (transform_of lists.old)) (office_of lists.old)
        → HasHanded start (T.forwards (transform_of lists.new)) (office_of lists.new)
        (sales_of result) }
    ensures transform { transform_of lists.new ≡ transform_of lists.old }
{
    life_law();
    at.keeps_ranges();
    lists.serve(at)
}

fn is_done(reply: &Reply) -> bool
    ensures { IsTrue result → reply.now ≡ Ok Answer.Done }
{
    matches!(reply, Ok(Answer::Done))
}

fn sale_in(reply: &Reply) -> Option<Sale>
    ensures { IfSome result (λ sale. sales_of reply.now ≡ sale ∷ []) }
{
    match reply {
        Ok(Answer::Sold(sale) | Answer::Reprinted(sale)) => Some(*sale),
        _ => None,
    }
}

fn is_under(sale: &Sale, number: MeterNo, base: Base) -> bool
    ensures meter { IsTrue result → sale.now.meter ≡ number }
    ensures base { IsTrue result → sale.now.base ≡ base }
{
    sale.meter == number && sale.base == base
}

// Adds a meter, or finds that the office has one of this key.
fn add_meter<T: BlockTransform>(
    lists: &mut Lists<T>,
    moment: Moment,
    number: MeterNo,
    meter: Meter,
) -> Result<(), Fail>
    ensures key { IfOk result (λ _. HasKey (office_of lists.new) number meter.key) }
    ensures lived { (start : Office)
        → IsLived start (T.forwards (transform_of lists.old)) (office_of lists.old)
        → IsLived start (T.forwards (transform_of lists.new)) (office_of lists.new) }
    ensures transform { transform_of lists.new ≡ transform_of lists.old }
{
    let at = Stamped {
        moment,
        nibble: 0,
        request: Request::AddMeter(number, meter),
    };
    let reply = ask(lists, &at);
    if is_done(&reply) {
        Ok(())
    } else {
        Err("the meter was not added".into())
    }
}

/// An office that sold once, and the sale.
#[derive(Drop)]
pub(crate) struct Sold<T> {
    pub(crate) lists: Lists<T>,
    pub(crate) sale: Sale,
}

/// An office that from the empty one on was asked, at one moment, for a tariff `flat`, a meter, a
/// shift, and a sale to the meter.
pub(crate) fn sold_once<T: BlockTransform + Drop>(
    alloc: Global,
    transform: T,
    moment: Moment,
    number: MeterNo,
    meter: Meter,
) -> Result<Sold<T>, Fail>
    ensures sold { IfOk result (λ sold. HasSold (T.forwards transform) number meter.key meter.base
        (office_of sold.lists) sold.sale) }
    ensures transform { IfOk result (λ sold. transform_of sold.lists ≡ transform) }
{
    history_law();
    let mut lists = Lists::new(alloc, transform);
    opens(&lists);
    let tariff = Request::AddTariff(tariff_name(b"flat")?, flat(alloc, 100)?);
    let _ = ask(&mut lists, &stamped(moment.secs(), 0, tariff)?);
    add_meter(&mut lists, moment, number, meter)?;
    let shift = Request::OpenShift(operator(b"ann")?);
    let _ = ask(&mut lists, &stamped(moment.secs(), 0, shift)?);
    let sell = order(b"A-1", number.as_bytes(), 50)?;
    let _ = ask(&mut lists, &stamped(moment.secs(), 0, sell)?);
    // The office has the meter still: to be asked for it again changes nothing.
    add_meter(&mut lists, moment, number, meter)?;
    let sale = match lists.sales() {
        [sale] => *sale,
        _ => return Err("not one sale".into()),
    };
    if is_under(&sale, number, meter.base) {
        Ok(Sold { lists, sale })
    } else {
        Err("another meter or base".into())
    }
}

/// Asks for a sale, by an order or by its number.
pub(crate) fn handed<T: BlockTransform>(lists: &mut Lists<T>, at: &Stamped) -> Result<Sale, Fail>
    ensures handed { IfOk result (λ sale. (start : Office)
        → IsLived start (T.forwards (transform_of lists.old)) (office_of lists.old)
        → HasHanded start (T.forwards (transform_of lists.new)) (office_of lists.new)
        (sale ∷ [])) }
    ensures transform { transform_of lists.new ≡ transform_of lists.old }
{
    let reply = ask(lists, at);
    match sale_in(&reply) {
        Some(sale) => Ok(sale),
        None => Err("no sale".into()),
    }
}
