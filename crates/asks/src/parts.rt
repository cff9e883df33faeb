//! The parts of asks, and the asks of parts: the lists of all asks.

ghost use Rattle.std.specs.Prelude.{◌≡◌, ◌≤◌, IfSome, length};
ghost use Rattle.asks.specs.Parts.{AreParts, ask_with, import_ask, parts, parts_of, plain_ask};
ghost use Rattle.asks.specs.Parts.{steps_ask, targeted, targeted_ask, told_ask};

use crate::ask::{Ask, Bulk};
use crate::csv::Csv;
use crate::kind::AskKind;
use crate::lookup::Lookup;
use crate::value::Value;
use arrayvec::ArrayVec;
use office_rules::{Meter, Order, Request};
use papers::FileKind;
use tariff::Steps;

/// The most values that a target has.
pub(crate) const MOST_IN_TARGET: usize = 2;

/// The most values that a body has.
pub(crate) const MOST_IN_BODY: usize = 4;

/// The kind of an ask, and its short values.
#[derive(Debug, Drop)]
pub(crate) struct Parts {
    pub(crate) kind: AskKind,
    pub(crate) target: ArrayVec<Value, MOST_IN_TARGET>,
    pub(crate) body: ArrayVec<Value, MOST_IN_BODY>,
}

impl Ask<'_> {
    /// Its kind.
    pub fn kind(&self) -> AskKind
        ensures { result ≡ (parts_of self.now).kind }
    {
        self.parts().kind
    }

    // Its kind and its short values.
    pub(crate) fn parts(&self) -> Parts
        ensures { AreParts (parts_of self.now) result }
    {
        use Value::{Base, Day, Key, Number, Operator, Ref, Start, Tariff, Tender};
        match self {
            Ask::Import(FileKind::Meters, _) => of_values(AskKind::ImportMeters, &[], &[]),
            Ask::Import(FileKind::Tariffs, _) => of_values(AskKind::ImportTariffs, &[], &[]),
            Ask::Do(Request::Import(_)) => of_values(AskKind::ImportMeters, &[], &[]),
            Ask::Do(Request::AddTariff(name, _)) => {
                of_values(AskKind::AddTariff, &[], &[Tariff(*name)])
            }
            Ask::Do(Request::AddSteps(name, day, _)) => {
                of_values(AskKind::AddSteps, &[Tariff(*name)], &[Day(*day)])
            }
            Ask::Do(Request::WithdrawSteps(name, day)) => {
                of_values(AskKind::WithdrawSteps, &[Tariff(*name), Day(*day)], &[])
            }
            Ask::Do(Request::AddMeter(number, meter)) => of_values(
                AskKind::AddMeter,
                &[],
                &[
                    Base(meter.base),
                    Key(meter.key),
                    Value::Meter(*number),
                    Tariff(meter.tariff),
                ],
            ),
            Ask::Do(Request::SetTariff(meter, name)) => of_values(
                AskKind::SetTariff,
                &[Value::Meter(*meter)],
                &[Tariff(*name)],
            ),
            Ask::Do(Request::MoveBase(meter, base)) => {
                of_values(AskKind::MoveBase, &[Value::Meter(*meter)], &[Base(*base)])
            }
            Ask::Do(Request::SetKey(meter, key)) => {
                of_values(AskKind::SetKey, &[Value::Meter(*meter)], &[Key(*key)])
            }
            Ask::Do(Request::OpenShift(operator)) => {
                of_values(AskKind::OpenShift, &[], &[Operator(*operator)])
            }
            Ask::Do(Request::CloseShift(operator)) => {
                of_values(AskKind::CloseShift, &[], &[Operator(*operator)])
            }
            Ask::Do(Request::Sell(order)) => of_values(
                AskKind::Sell,
                &[],
                &[
                    Value::Meter(order.meter),
                    Operator(order.operator),
                    Ref(order.order_ref),
                    Tender(order.tender),
                ],
            ),
            Ask::Do(Request::Reprint(sale)) => of_values(AskKind::Reprint, &[Number(*sale)], &[]),
            Ask::Do(Request::ShiftReport(shift)) => {
                of_values(AskKind::ShiftReport, &[Number(*shift)], &[])
            }
            Ask::Receipt(sale) => of_values(AskKind::Receipt, &[Number(*sale)], &[]),
            Ask::Look(Lookup::Health) => of_values(AskKind::Health, &[], &[]),
            Ask::Look(Lookup::Meter(meter)) => {
                of_values(AskKind::Meter, &[Value::Meter(*meter)], &[])
            }
            Ask::Look(Lookup::LastSale(meter)) => {
                of_values(AskKind::LastSale, &[Value::Meter(*meter)], &[])
            }
            Ask::Look(Lookup::SaleOfRef(operator, order_ref)) => of_values(
                AskKind::SaleOfRef,
                &[Operator(*operator), Ref(*order_ref)],
                &[],
            ),
            Ask::Look(Lookup::Quote(meter, tender)) => {
                of_values(
                    AskKind::Quote,
                    &[Value::Meter(*meter), Tender(*tender)],
                    &[],
                )
            }
            Ask::Look(Lookup::ShiftTotals(shift)) => {
                of_values(AskKind::ShiftTotals, &[Number(*shift)], &[])
            }
            Ask::Look(Lookup::Tariffs(None)) => of_values(AskKind::FirstTariffs, &[], &[]),
            Ask::Look(Lookup::Tariffs(Some(name))) => {
                of_values(AskKind::TariffsAfter, &[Tariff(*name)], &[])
            }
            Ask::Look(Lookup::Meters(None)) => of_values(AskKind::FirstMeters, &[], &[]),
            Ask::Look(Lookup::Meters(Some(meter))) => {
                of_values(AskKind::MetersAfter, &[Value::Meter(*meter)], &[])
            }
            Ask::Look(Lookup::Shifts(shift)) => of_values(
                AskKind::ShiftsAfter,
                &[Start(*shift)],
                &[],
            ),
            Ask::Look(Lookup::Sales(sale)) => of_values(AskKind::SalesAfter, &[Start(*sale)], &[]),
        }
    }
}

// A kind and values, in a place of their own.
fn of_values(kind: AskKind, target: &[Value], body: &[Value]) -> Parts
    requires target { length target.now ≤ 2 }
    requires body { length body.now ≤ 4 }
    ensures kind { result.kind ≡ kind }
    ensures target { result.target.items ≡ target.now }
    ensures body { result.body.items ≡ body.now }
{
    let mut parts = Parts {
        kind,
        target: ArrayVec::new(),
        body: ArrayVec::new(),
    };
    parts.target.try_extend_from_slice(target).unwrap();
    parts.body.try_extend_from_slice(body).unwrap();
    parts
}

// The ask of a kind, with these values and what it has beside them, if there is one.
pub(crate) fn ask_of<'a>(
    kind: AskKind,
    target: &[Value],
    body: &[Value],
    bulk: Bulk<'a>,
) -> Option<Ask<'a>>
    ensures ask { result ≡ ask_with kind target.now body.now bulk.entry }
    ensures back { IfSome result (λ ask. parts_of ask ≡ parts kind target.now body.now bulk.entry) }
{
    match bulk {
        Bulk::Nothing => plain_ask(kind, target, body),
        Bulk::Rows(csv) => import_ask(kind, target, body, csv),
        Bulk::Steps(steps) => steps_ask(kind, target, body, steps),
    }
}

// The same with nothing beside its values.
fn plain_ask<'a>(kind: AskKind, target: &[Value], body: &[Value]) -> Option<Ask<'a>>
    ensures ask { result ≡ plain_ask kind target.now body.now }
    ensures back { IfSome result (λ ask. parts_of ask
        ≡ parts kind target.now body.now Bulk.Nothing) }
{
    if body.is_empty() {
        targeted_ask(kind, target)
    } else {
        told_ask(kind, target, body)
    }
}

// The ask of a kind whose values are in its target.
fn targeted_ask<'a>(kind: AskKind, target: &[Value]) -> Option<Ask<'a>>
    ensures ask { result ≡ targeted_ask kind target.now }
    ensures back { IfSome result (λ ask. parts_of ask ≡ targeted kind target.now) }
{
    match kind {
        AskKind::Health => match target {
            [] => Some(Ask::Look(Lookup::Health)),
            _ => None,
        },
        AskKind::Meter => match target {
            [Value::Meter(meter)] => Some(Ask::Look(Lookup::Meter(*meter))),
            _ => None,
        },
        AskKind::LastSale => match target {
            [Value::Meter(meter)] => Some(Ask::Look(Lookup::LastSale(*meter))),
            _ => None,
        },
        AskKind::SaleOfRef => match target {
            [Value::Operator(operator), Value::Ref(order_ref)] => Some(Ask::Look(Lookup::SaleOfRef(
                *operator, *order_ref,
            ))),
            _ => None,
        },
        AskKind::Quote => match target {
            [Value::Meter(meter), Value::Tender(tender)] => Some(Ask::Look(Lookup::Quote(
                *meter, *tender,
            ))),
            _ => None,
        },
        AskKind::ShiftTotals => match target {
            [Value::Number(shift)] => Some(Ask::Look(Lookup::ShiftTotals(*shift))),
            _ => None,
        },
        AskKind::FirstTariffs => match target {
            [] => Some(Ask::Look(Lookup::Tariffs(None))),
            _ => None,
        },
        AskKind::TariffsAfter => match target {
            [Value::Tariff(name)] => Some(Ask::Look(Lookup::Tariffs(Some(*name)))),
            _ => None,
        },
        AskKind::FirstMeters => match target {
            [] => Some(Ask::Look(Lookup::Meters(None))),
            _ => None,
        },
        AskKind::MetersAfter => match target {
            [Value::Meter(meter)] => Some(Ask::Look(Lookup::Meters(Some(*meter)))),
            _ => None,
        },
        AskKind::ShiftsAfter => match target {
            [Value::Start(shift)] => Some(Ask::Look(Lookup::Shifts(*shift))),
            _ => None,
        },
        AskKind::SalesAfter => match target {
            [Value::Start(sale)] => Some(Ask::Look(Lookup::Sales(*sale))),
            _ => None,
        },
        AskKind::Receipt => match target {
            [Value::Number(sale)] => Some(Ask::Receipt(*sale)),
            _ => None,
        },
        AskKind::Reprint => match target {
            [Value::Number(sale)] => Some(Ask::Do(Request::Reprint(*sale))),
            _ => None,
        },
        AskKind::ShiftReport => match target {
            [Value::Number(shift)] => Some(Ask::Do(Request::ShiftReport(*shift))),
            _ => None,
        },
        AskKind::WithdrawSteps => match target {
            [Value::Tariff(name), Value::Day(day)] => Some(Ask::Do(Request::WithdrawSteps(
                *name, *day,
            ))),
            _ => None,
        },
        AskKind::ImportMeters
        | AskKind::ImportTariffs
        | AskKind::AddTariff
        | AskKind::AddSteps
        | AskKind::AddMeter
        | AskKind::SetTariff
        | AskKind::MoveBase
        | AskKind::SetKey
        | AskKind::OpenShift
        | AskKind::CloseShift
        | AskKind::Sell => None,
    }
}

// The ask of a kind that has values in its body.
fn told_ask<'a>(kind: AskKind, target: &[Value], body: &[Value]) -> Option<Ask<'a>>
    ensures ask { result ≡ told_ask kind target.now body.now }
    ensures back { IfSome result (λ ask. parts_of ask
        ≡ parts kind target.now body.now Bulk.Nothing) }
{
    match kind {
        AskKind::AddMeter => added_meter(target, body),
        AskKind::Sell => sale(target, body),
        AskKind::SetTariff => match (target, body) {
            ([Value::Meter(meter)], [Value::Tariff(name)]) => Some(Ask::Do(Request::SetTariff(
                *meter, *name,
            ))),
            _ => None,
        },
        AskKind::MoveBase => match (target, body) {
            ([Value::Meter(meter)], [Value::Base(base)]) => Some(Ask::Do(Request::MoveBase(
                *meter, *base,
            ))),
            _ => None,
        },
        AskKind::SetKey => match (target, body) {
            ([Value::Meter(meter)], [Value::Key(key)]) => Some(Ask::Do(Request::SetKey(
                *meter, *key,
            ))),
            _ => None,
        },
        AskKind::OpenShift => match (target, body) {
            ([], [Value::Operator(operator)]) => Some(Ask::Do(Request::OpenShift(*operator))),
            _ => None,
        },
        AskKind::CloseShift => match (target, body) {
            ([], [Value::Operator(operator)]) => Some(Ask::Do(Request::CloseShift(*operator))),
            _ => None,
        },
        _ => None,
    }
}

// The ask that adds a meter.
fn added_meter<'a>(target: &[Value], body: &[Value]) -> Option<Ask<'a>>
    ensures ask { result ≡ told_ask AskKind.AddMeter target.now body.now }
    ensures back { IfSome result (λ ask. parts_of ask
        ≡ parts AskKind.AddMeter target.now body.now Bulk.Nothing) }
{
    if !target.is_empty() {
        return None;
    }
    match body {
        [
            Value::Base(base),
            Value::Key(key),
            Value::Meter(number),
            Value::Tariff(name),
        ] => {
            let meter = Meter {
                base: *base,
                tariff: *name,
                key: *key,
            };
            Some(Ask::Do(Request::AddMeter(*number, meter)))
        }
        _ => None,
    }
}

// The ask for a sale.
fn sale<'a>(target: &[Value], body: &[Value]) -> Option<Ask<'a>>
    ensures ask { result ≡ told_ask AskKind.Sell target.now body.now }
    ensures back { IfSome result (λ ask. parts_of ask
        ≡ parts AskKind.Sell target.now body.now Bulk.Nothing) }
{
    if !target.is_empty() {
        return None;
    }
    match body {
        [
            Value::Meter(meter),
            Value::Operator(operator),
            Value::Ref(order_ref),
            Value::Tender(tender),
        ] => {
            Some(Ask::Do(Request::Sell(Order {
                operator: *operator,
                order_ref: *order_ref,
                meter: *meter,
                tender: *tender,
            })))
        }
        _ => None,
    }
}

// The ask of a kind that has rows.
fn import_ask<'a>(kind: AskKind, target: &[Value], body: &[Value], csv: Csv<'a>) -> Option<Ask<'a>>
    ensures ask { result ≡ import_ask kind target.now body.now csv.entry }
    ensures back { IfSome result (λ ask. parts_of ask
        ≡ parts kind target.now body.now (Bulk.Rows csv.entry)) }
{
    match (kind, target, body) {
        (AskKind::ImportMeters, [], []) => Some(Ask::Import(FileKind::Meters, csv)),
        (AskKind::ImportTariffs, [], []) => Some(Ask::Import(FileKind::Tariffs, csv)),
        _ => None,
    }
}

// The ask of a kind that has steps.
fn steps_ask<'a>(kind: AskKind, target: &[Value], body: &[Value], steps: Steps) -> Option<Ask<'a>>
    ensures ask { result ≡ steps_ask kind target.now body.now steps }
    ensures back { IfSome result (λ ask. parts_of ask
        ≡ parts kind target.now body.now (Bulk.Steps steps)) }
{
    match (kind, target, body) {
        (AskKind::AddTariff, [], [Value::Tariff(name)]) => {
            Some(Ask::Do(Request::AddTariff(*name, steps)))
        }
        (AskKind::AddSteps, [Value::Tariff(name)], [Value::Day(day)]) => {
            Some(Ask::Do(Request::AddSteps(*name, *day, steps)))
        }
        _ => None,
    }
}
