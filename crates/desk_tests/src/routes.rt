//! Which kind of ask a target and a method stand for, and with which values.

use crate::bodies::{self, asked};
use crate::texts::bytes;
use crate::words::{lookup, meter, tariff};
use arrayvec::ArrayVec;
use asks::Value;
use desk::{AskKind, DeskFault, Lookup, Method, Named, Routes};
use std::alloc::{AllocError, Global};
use std::test::Fail;
use sts_fields::Day;

// Each a target behind its method, and what it names.
fn targets() -> &'static str {
    "\
POST /tariffs = add-tariff
POST /tariffs/flat/steps = add-steps flat
POST /tariffs/steps/steps = add-steps steps
POST /tariffs/abcdefghijklmnopqrstuvwxyz-01234/steps = add-steps abcdefghijklmnopqrstuvwxyz-01234
DELETE /tariffs/flat/steps/2014-02-01 = withdraw-steps flat 2014-02-01
DELETE /tariffs/steps/steps/2099-12-31 = withdraw-steps steps 2099-12-31
POST /meters = add-meter
POST /meters/12345678903/tariff = set-tariff 12345678903
POST /meters/12345678903/base = move-base 12345678903
POST /meters/12345678903/key = set-key 12345678903
POST /shifts = open-shift
POST /shifts/close = close-shift
GET /shifts/1 = report 1
GET /shifts/1000000000 = report 1000000000
POST /sales = sell
GET /sales/9 = reprint 9
GET /sales/999999999 = reprint 999999999
GET /sales/10/receipt = receipt 10
GET /sales/1000000000/receipt = receipt 1000000000
POST /imports/meters = import-meters
POST /imports/tariffs = import-tariffs
GET /health = health
GET /meters/12345678903 = meter 12345678903
GET /meters/12345678903/last = last-sale 12345678903
GET /meters/12345678903/quote?tender=1 = quote 12345678903 1
GET /meters/12345678903/quote?tender=100000000 = quote 12345678903 100000000
GET /operators/a/sales/b = sale-of-ref a b
GET /operators/sales/sales/sales = sale-of-ref sales sales
GET /operators/abcdefghijKLMN09/sales/abcdefghijklmnopqrstuvwxyz-01234 = \
    sale-of-ref abcdefghijKLMN09 abcdefghijklmnopqrstuvwxyz-01234
GET /shifts/1/totals = totals 1
GET /shifts/1000000000/totals = totals 1000000000
GET /tariffs?after= = tariffs
GET /tariffs?after=flat = tariffs flat
GET /tariffs?after=abcdefghijklmnopqrstuvwxyz-01234 = tariffs abcdefghijklmnopqrstuvwxyz-01234
GET /meters?after= = meters
GET /meters?after=12345678903 = meters 12345678903
GET /shifts?after=0 = shifts 0
GET /shifts?after=1000000000 = shifts 1000000000
GET /sales?after=0 = sales 0
GET /sales?after=10 = sales 10
GET /sales?after=1000000000 = sales 1000000000
"
}

// What a line names.
fn named(text: &str) -> Result<Named, Fail> {
    let (word, value) = text.split_once(' ').unwrap_or((text, ""));
    match word {
        "add-steps" | "withdraw-steps" => of_tariff(word, value),
        "set-tariff" => one(AskKind::SetTariff, Value::Meter(meter(value)?)),
        "move-base" => one(AskKind::MoveBase, Value::Meter(meter(value)?)),
        "set-key" => one(AskKind::SetKey, Value::Meter(meter(value)?)),
        "report" => one(AskKind::ShiftReport, Value::Number(value.parse()?)),
        "reprint" => one(AskKind::Reprint, Value::Number(value.parse()?)),
        "receipt" => one(AskKind::Receipt, Value::Number(value.parse()?)),
        _ => match without_values(word) {
            Some(kind) => Ok(none(kind)),
            None => named_by(&lookup(word, value)?),
        },
    }
}

fn without_values(word: &str) -> Option<AskKind> {
    match word {
        "add-tariff" => Some(AskKind::AddTariff),
        "add-meter" => Some(AskKind::AddMeter),
        "open-shift" => Some(AskKind::OpenShift),
        "close-shift" => Some(AskKind::CloseShift),
        "sell" => Some(AskKind::Sell),
        "import-meters" => Some(AskKind::ImportMeters),
        "import-tariffs" => Some(AskKind::ImportTariffs),
        _ => None,
    }
}

fn of_tariff(word: &str, value: &str) -> Result<Named, Fail> {
    let (name, date) = value.split_once(' ').unwrap_or((value, ""));
    let name = Value::Tariff(tariff(name)?);
    if word == "add-steps" {
        return one(AskKind::AddSteps, name);
    }
    let day = Day::of_text(date.as_bytes()).ok().ok_or("a day")?;
    two(AskKind::WithdrawSteps, name, Value::Day(day))
}

fn named_by(lookup: &Lookup) -> Result<Named, Fail> {
    match lookup {
        Lookup::Health => Ok(none(AskKind::Health)),
        Lookup::Meter(meter) => one(AskKind::Meter, Value::Meter(*meter)),
        Lookup::LastSale(meter) => one(AskKind::LastSale, Value::Meter(*meter)),
        Lookup::SaleOfRef(operator, order_ref) => two(
            AskKind::SaleOfRef,
            Value::Operator(*operator),
            Value::Ref(*order_ref),
        ),
        Lookup::Quote(meter, tender) => two(
            AskKind::Quote,
            Value::Meter(*meter),
            Value::Tender(*tender),
        ),
        Lookup::ShiftTotals(shift) => one(AskKind::ShiftTotals, Value::Number(*shift)),
        Lookup::Tariffs(None) => Ok(none(AskKind::FirstTariffs)),
        Lookup::Tariffs(Some(name)) => one(AskKind::TariffsAfter, Value::Tariff(*name)),
        Lookup::Meters(None) => Ok(none(AskKind::FirstMeters)),
        Lookup::Meters(Some(meter)) => one(AskKind::MetersAfter, Value::Meter(*meter)),
        Lookup::Shifts(shift) => one(AskKind::ShiftsAfter, Value::Start(*shift)),
        Lookup::Sales(sale) => one(AskKind::SalesAfter, Value::Start(*sale)),
    }
}

fn none(kind: AskKind) -> Named {
    Named {
        kind,
        values: ArrayVec::new(),
    }
}

fn one(kind: AskKind, value: Value) -> Result<Named, Fail> {
    let mut named = none(kind);
    named.values.try_push(value).ok().ok_or("room")?;
    Ok(named)
}

fn two(kind: AskKind, first: Value, second: Value) -> Result<Named, Fail> {
    let mut named = one(kind, first)?;
    named.values.try_push(second).ok().ok_or("room")?;
    Ok(named)
}

// Targets that are no routes, each behind a `>`. `texts` says how they are written.
fn no_targets() -> &'static str {
    ">>/>*>tariffs>/tariffs/>//tariffs>/Tariffs>/tariffs?>/tariffs^>http://d/tariffs>/tariffs/flat\
    >/tariffs/flat/>/tariffs/flat/step>/tariffs/flat/steps/>/tariffs//steps>/tariffs/flat_1/steps\
    >/tariffs/fl%61t/steps>/tariffs/fl\u{e4}t/steps>/tariffs/a/b/steps\
    >/tariffs/abcdefghijklmnopqrstuvwxyz-012345/steps>/tariffs/flat/steps/2014-02-29\
    >/tariffs/flat/steps/2014-2-1>/tariffs/flat/steps/1992-12-31>/tariffs/flat/steps/2100-01-01\
    >/tariffs/flat/steps/2014-02-01/>/tariffs//steps/2014-02-01>/tariffs/flat/step/2014-02-01\
    >/tariffs/a/b/steps/2014-02-01>/tariffs/fl_t/steps/2014-02-01>/tariffs/flat/steps/2014%2D02-01\
    >/meters/12345678904/key>/meters//key>/meters/12345678903/keys>/meters/12345678903/key/\
    >/meters/12345678904/tariff\
    >/meters/1234567890/tariff>/meters/012345678903/tariff>/meters/%312345678903/tariff\
    >/meters//tariff>/meters/12345678904>/meters/12345678904/base>/meters//base\
    >/meters/12345678903/bases>/meters/12345678903/base/>/shifts/closed>/shifts/0>/shifts/01\
    >/shifts/+1>/shifts/-1>/shifts/1.0>/shifts/%31>/shifts/>/shifts/1/>/sales/1000000001\
    >/sales/18446744073709551617>/sales/00000000001>/sales/1/receipts>/sales/0/receipt\
    >/imports/sales>/health/>/health?>/healthy>/meters/>/meters/1234567890>/meters/12345678903/\
    >/meters/12345678903?a=1>/meters/12345678904/last>/meters/12345678903/last?>/meters//last\
    >/meters/12345678903/last/>/meters/12345678903/quote>/meters/12345678903/quote?\
    >/meters/12345678903/quote?tender=>/meters/12345678903/quote?tender=0\
    >/meters/12345678903/quote?tender=01>/meters/12345678903/quote?tender=+1\
    >/meters/12345678903/quote?tender=-1>/meters/12345678903/quote?tender=1.0\
    >/meters/12345678903/quote?tender=100000001>/meters/12345678903/quote?tender=4294967297\
    >/meters/12345678903/quote?tender=18446744073709551617>/meters/12345678903/quote?tender=1/\
    >/meters/12345678903/quote?tender=1&tender=2>/meters/12345678903/quote?Tender=1\
    >/meters/12345678903/quote?a=1&tender=1>/meters/12345678903/quote/?tender=1\
    >/meters/12345678903/quote%3Ftender=1>/meters/12345678904/quote?tender=1\
    >/meters//quote?tender=1>/meters/12345678903/quote?tender=1^>/operators>/operators/ann\
    >/operators/ann/sales>/operators/ann/sales/>/operators//sales/A-1>/operators/a-b/sales/A-1\
    >/operators/abcdefghijKLMN090/sales/A-1>/operators/ann/sales/A_1>/operators/ann/sales/A-1/\
    >/operators/ann/sales/abcdefghijklmnopqrstuvwxyz-012345>/operators/ann/sales/A-1/receipt\
    >/operators/ann/sales/A-1?>/operators/ann/sale/A-1>/operators/a/b/sales/A-1\
    >/shifts/0/totals>/shifts/01/totals>/shifts//totals>/shifts/close/totals>/shifts/1/total\
    >/shifts/1/totals/>/shifts/1/totals?>/shifts/1000000001/totals\
    >/tariffs?after>/tariffs?after=flat&>/tariffs?after=a_b>/tariffs?after=fl%61t\
    >/tariffs?after=flat/>/tariffs?After=flat>/tariffs?before=flat>/tariffs?after=a&after=b\
    >/tariffs?limit=1&after=>/tariffs?after=abcdefghijklmnopqrstuvwxyz-012345>/tariffs/?after=\
    >/meters?after>/meters?after=1>/meters?after=12345678904>/meters?after=12345678903&\
    >/meters?after=12345678903/>/meters?after=012345678903>/shifts?after>/shifts?after=\
    >/shifts?after=00>/shifts?after=01>/shifts?after=+1>/shifts?after=-1>/shifts?after=1000000001\
    >/shifts?after=0&>/sales?after>/sales?after=>/sales?after=00>/sales?after=1.0>/sales?after=%30\
    >/sales?after=1000000001>/sales?after=4294967296>/sales?after=18446744073709551616\
    >/sales/?after=0>/health?after=0"
}

#[test]
fn each_route(rt: HostRuntime) -> Result<(), Fail> {
    let routes = Routes::new(rt.alloc())?;
    for line in targets().lines() {
        let (asked, wanted) = line.split_once(" = ").ok_or("no route")?;
        let (method, target) = asked.split_once(' ').ok_or("no target")?;
        let (own, other) = match method {
            "GET" => (Method::Get, Method::Delete),
            "DELETE" => (Method::Delete, Method::Post),
            _ => (Method::Post, Method::Get),
        };
        let target = target.as_bytes();
        assert_eq!(rt; routes.route_of(target, own), Ok(named(wanted)?), "{line}");
        let fault = Err(DeskFault::Method(own));
        assert_eq!(rt; routes.route_of(target, other), fault, "{line}");
        let of_get = routes.route_of(target, Method::Get);
        assert_eq!(rt; routes.route_of(target, Method::Head), of_get, "{line}");
    }
    assert_eq!(rt; targets().lines().count(), 41);
    Ok(())
}

// The words of targets that have a body, and what else is no look-up.
fn is_look_up(word: &str) -> bool {
    match word {
        "add-steps" | "withdraw-steps" | "set-tariff" | "move-base" | "set-key" | "report" => false,
        "reprint" | "receipt" => false,
        _ => without_values(word).is_none(),
    }
}

#[test]
fn each_look_up(rt: HostRuntime) -> Result<(), Fail> {
    let alloc = rt.alloc();
    let routes = Routes::new(alloc)?;
    let mut count = 0u32;
    for line in targets().lines() {
        let (head, wanted) = line.split_once(" = ").ok_or("no route")?;
        let (_, target) = head.split_once(' ').ok_or("no target")?;
        let (word, _) = wanted.split_once(' ').unwrap_or((wanted, ""));
        if is_look_up(word) {
            let look = format!(in alloc; "look {wanted}")?;
            let wanted = bodies::wanted(alloc, look.as_str())?;
            let found = asked(alloc, &routes, target, b"")?;
            assert_eq!(rt; found.as_str(), wanted.as_str(), "{line}");
            count = count.saturating_add(1);
        }
    }
    assert_eq!(rt; count, 20);
    Ok(())
}

#[test]
fn no_route(rt: HostRuntime) -> Result<(), Fail> {
    let routes = Routes::new(rt.alloc())?;
    for text in no_targets().split('>').skip(1) {
        let target = bytes(rt.alloc(), text)?;
        for method in [Method::Get, Method::Head, Method::Post, Method::Delete] {
            let found = routes.route_of(&target, method);
            assert_eq!(rt; found, Err(DeskFault::NoRoute), "{text}");
        }
    }
    assert_eq!(rt; no_targets().split('>').count(), 148);
    Ok(())
}

// The pattern of a kind, behind its method.
fn pattern(alloc: Global, kind: AskKind) -> Result<Vec<u8>, AllocError> {
    let mut text = match kind.endpoint().method {
        Method::Get => Vec::from_slice(alloc, b"GET ")?,
        Method::Post => Vec::from_slice(alloc, b"POST ")?,
        _ => Vec::from_slice(alloc, b"DELETE ")?,
    };
    kind.put_pattern(&mut text)?;
    Ok(text)
}

static PATTERNS: [(AskKind, &str); 8] = [
    (AskKind::SetTariff, "POST /meters/{meter}/tariff"),
    (AskKind::MoveBase, "POST /meters/{meter}/base"),
    (AskKind::AddSteps, "POST /tariffs/{tariff}/steps"),
    (AskKind::SetKey, "POST /meters/{meter}/key"),
    (
        AskKind::WithdrawSteps,
        "DELETE /tariffs/{tariff}/steps/{day}",
    ),
    (AskKind::Quote, "GET /meters/{meter}/quote?tender={tender}"),
    (AskKind::MetersAfter, "GET /meters?after={meter}"),
    (AskKind::SaleOfRef, "GET /operators/{operator}/sales/{ref}"),
];

#[test]
fn patterns(rt: HostRuntime) -> Result<(), Fail> {
    for (kind, wanted) in &PATTERNS {
        assert_eq!(rt; pattern(rt.alloc(), *kind)?.as_slice(), wanted.as_bytes());
    }
    assert_eq!(rt; AskKind::FirstMeters.endpoint().method, Method::Get);
    Ok(())
}
