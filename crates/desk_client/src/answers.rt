//! Which replies answer an ask.

ghost use Rattle.std.specs.Prelude.{◌↔◌, IsTrue, MatchOption};
ghost use Rattle.desk_client.specs.Answers.{Answers, GrantsWhat, IsReplyTo, IsRowRefused};
ghost use Rattle.desk_client.specs.Answers.{IsNamedSale, IsSaleFor, MayRefuse};
ghost use Rattle.sts_token.specs.Reading.{IsOfClassZero};
ghost use Rattle.desk_client.specs.declared.told.Told.{Told as WhatIsTold};

use crate::law::told_law;
use crate::receipt::{is_receipt_numbered, is_receipt_of};
use crate::reply::{Reading, reply_in};
use crate::report::is_report_of;
use crate::sending::wanted_by;
use crate::told::{Granted, Told};
use asks::{Ask, Lookup};
use office_rules::{Order, Refusal, Request, RowCause, Rows, Sale};
use sts_token::{Plain, TokenFault, read};

// The number of the last row that a file may have.
const LAST_ROW: u32 = Rows::MAX as u32;

/// Reads bytes as the whole reply to this ask. `None` if they are no whole reply, have another form
/// than a desk writes, or answer another ask: another sale, meter, quote or shift, or by a refusal
/// that the office does not give for this one.
pub fn answer_in<'b>(ask: &Ask<'_>, came: &'b [u8]) -> Option<Told<'b>>
    ensures { MatchOption result ((told : WhatIsTold) → ¬ IsReplyTo ask.now came.now told)
        (IsReplyTo ask.now came.now) }
{
    told_law();
    let Reading::Whole(told) = reply_in(came, wanted_by(ask)) else {
        return None;
    };
    if is_answered(ask, &told) {
        Some(told)
    } else {
        None
    }
}

// Whether this answers the ask.
fn is_answered(ask: &Ask<'_>, told: &Told<'_>) -> bool
    ensures { IsTrue result ↔ Answers ask.now told.now }
{
    match told {
        Told::Granted(granted) => is_granted(ask, granted),
        Told::Refused(refusal) => may_refuse(ask, *refusal),
        Told::NoMoment => true,
    }
}

// Whether what is granted is what the ask names.
fn is_granted(ask: &Ask<'_>, granted: &Granted<'_>) -> bool
    ensures { IsTrue result ↔ GrantsWhat granted.now ask.now }
{
    match (granted, ask) {
        (Granted::Sale(sale), _) => is_of_class_zero(&sale.digits) && names_sale(ask, sale),
        (Granted::Totals(shift, _), Ask::Look(Lookup::ShiftTotals(number))) => shift == number,
        (Granted::Paper(text), Ask::Do(Request::ShiftReport(number))) => {
            is_report_of(*number, text)
        }
        (Granted::Paper(text), Ask::Receipt(number)) => is_receipt_numbered(*number, text),
        (Granted::Paper(text), Ask::Look(Lookup::LastSale(meter))) => is_receipt_of(meter, text),
        (Granted::Meter(summary), Ask::Look(Lookup::Meter(meter))) => {
            summary.number.as_bytes() == meter.as_bytes()
        }
        (Granted::Quote(quote), Ask::Look(Lookup::Quote(meter, tender))) => {
            quote.meter.as_bytes() == meter.as_bytes() && quote.tender.cents() == tender.cents()
        }
        _ => true,
    }
}

// Whether a sale is the one that the ask names.
fn names_sale(ask: &Ask<'_>, sale: &Sale) -> bool
    ensures { IsTrue result ↔ IsNamedSale sale.now ask.now }
{
    match ask {
        Ask::Do(Request::Sell(order)) => is_sale_for(order, sale),
        Ask::Do(Request::Reprint(number)) => sale.number == *number,
        Ask::Look(Lookup::SaleOfRef(operator, order_ref)) => {
            sale.operator.as_bytes() == operator.as_bytes()
                && sale.order_ref.as_bytes() == order_ref.as_bytes()
        }
        _ => true,
    }
}

// Whether the office has this refusal for the ask.
fn may_refuse(ask: &Ask<'_>, refusal: Refusal) -> bool
    ensures { IsTrue result ↔ MayRefuse refusal ask.now }
{
    match refusal {
        Refusal::RefReused => matches!(ask, Ask::Do(Request::Sell(_))),
        Refusal::NoShift => { matches!(ask, Ask::Do(Request::CloseShift(_) | Request::Sell(_))) }
        Refusal::ShiftOpen => matches!(ask, Ask::Do(Request::OpenShift(_))),
        Refusal::NoMeter => matches!(
            ask,
            Ask::Do(
                Request::SetTariff(..)
                    | Request::MoveBase(..)
                    | Request::SetKey(..)
                    | Request::Sell(_)
            ) | Ask::Look(Lookup::Meter(_) | Lookup::LastSale(_) | Lookup::Quote(..))
        ),
        Refusal::NoTariff => matches!(
            ask,
            Ask::Do(
                Request::AddSteps(..)
                    | Request::AddMeter(..)
                    | Request::SetTariff(..)
                    | Request::WithdrawSteps(..)
            )
        ),
        Refusal::BeforeBase => matches!(
            ask,
            Ask::Do(Request::MoveBase(..) | Request::Sell(_)) | Ask::Look(Lookup::Quote(..))
        ),
        Refusal::IdentifiersSpent | Refusal::IdentifierAhead | Refusal::TooLittle => matches!(
            ask,
            Ask::Do(Request::Sell(_)) | Ask::Look(Lookup::Quote(..))
        ),
        Refusal::OfficeFull => matches!(
            ask,
            Ask::Do(Request::OpenShift(_) | Request::Sell(_)) | Ask::Look(Lookup::Quote(..))
        ),
        Refusal::NoSale => matches!(
            ask,
            Ask::Do(Request::Reprint(_))
                | Ask::Receipt(_)
                | Ask::Look(Lookup::LastSale(_) | Lookup::SaleOfRef(..))
        ),
        Refusal::NoSuchShift => matches!(
            ask,
            Ask::Do(Request::ShiftReport(_)) | Ask::Look(Lookup::ShiftTotals(_))
        ),
        Refusal::ImportRow(row, cause) => {
            matches!(ask, Ask::Import(..)) && is_row_refused(row, cause)
        }
        Refusal::NotLater => matches!(ask, Ask::Do(Request::MoveBase(..))),
        Refusal::Memory | Refusal::Store | Refusal::Stopped => true,
        Refusal::DayPast => {
            matches!(
                ask,
                Ask::Do(Request::AddSteps(..) | Request::WithdrawSteps(..))
            )
        }
        Refusal::HasSales => matches!(ask, Ask::Do(Request::SetKey(..))),
        Refusal::Differs => matches!(
            ask,
            Ask::Do(Request::AddTariff(..) | Request::AddSteps(..) | Request::AddMeter(..))
        ),
    }
}

// Whether a sale is that of an order.
fn is_sale_for(order: &Order, sale: &Sale) -> bool
    ensures { IsTrue result ↔ IsSaleFor order.now sale.now }
{
    sale.operator.as_bytes() == order.operator.as_bytes()
        && sale.order_ref.as_bytes() == order.order_ref.as_bytes()
        && sale.meter.as_bytes() == order.meter.as_bytes()
        && sale.tender.cents() == order.tender.cents()
}

// Whether some digits can be those of a token of credit: of 66 bits and class 0.
pub(crate) fn is_of_class_zero(digits: &[u8]) -> bool
    ensures { IsTrue result ↔ IsOfClassZero digits.now }
{
    match read(&Plain, 0, digits) {
        Ok(_) => true,
        Err(fault) => match fault {
            TokenFault::NotTwentyDigits => false,
            TokenFault::TooLarge => false,
            TokenFault::WrongClass => false,
            TokenFault::BadCheck => true,
            TokenFault::WrongSubclass => true,
        },
    }
}

// Whether this row of a file may be refused for this cause.
fn is_row_refused(row: u32, cause: RowCause) -> bool
    ensures { IsTrue result ↔ IsRowRefused row cause }
{
    let is_row = (1..=LAST_ROW).contains(&row);
    match cause {
        RowCause::Header => row == 0,
        RowCause::Field(number) => is_row && (1..=4).contains(&number),
        RowCause::TooManyRows => row == LAST_ROW + 1,
        RowCause::Columns | RowCause::Differs | RowCause::NoTariff | RowCause::DayPast => is_row,
    }
}
