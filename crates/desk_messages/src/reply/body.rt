ghost use Rattle.std.specs.Prelude.{◌≡◌, ◌∷◌, [], IfOk, IfSome, map};
ghost use Rattle.records.specs.Cell.{number};
ghost use Rattle.desk_messages.specs.reply.Body.{answer_body, body_of, found_body, plain_text};
ghost use Rattle.desk_messages.specs.reply.Body.{refusal_text, sale_body};
ghost use Rattle.desk_messages.specs.reply.Records.{fault_text, row_cells, row_names};
ghost use Rattle.desk_messages.specs.reply.Records.{sale_text};
ghost use Rattle.records.specs.Record.{now, record_text};

use crate::fields;
use crate::reply::form::Form;
use crate::reply::found::{health_body, meter_body, quote_body, totals_body};
use crate::reply::outcome::Outcome;
use crate::reply::pages::{meters_body, sales_body, shifts_body, tariffs_body};
use crate::reply::record::record;
use crate::reply::sale_text::sale_text;
use book_states::Found;
use office_rules::{Answer, Category, Refusal, Sale};
use papers::{receipt, shift_report};
use records::Cell;
use std::alloc::{AllocError, Global};

// The body for what came of a message.
pub(crate) fn body_of(alloc: Global, outcome: &Outcome) -> Result<Vec<u8>, AllocError>
    ensures { IfOk result (λ body. body.items ≡ body_of outcome.now) }
{
    match outcome {
        Outcome::Refused(fault) => fault_body(alloc, fault.word()),
        Outcome::Faulty(fault) => fault_body(alloc, fault.word()),
        Outcome::Replied(form, Ok(answer)) => answer_body(alloc, *form, answer),
        Outcome::Found(form, Ok(found)) => found_body(alloc, *form, found),
        Outcome::Replied(_, Err(refusal)) | Outcome::Found(_, Err(refusal)) => {
            refusal_body(alloc, *refusal)
        }
    }
}

// A fault of the desk, told by its word.
fn fault_body(alloc: Global, word: &str) -> Result<Vec<u8>, AllocError>
    ensures { IfOk result (λ body. body.items ≡ fault_text word.now) }
{
    record(alloc, &fields::FAULT, &[Cell::Text(word.as_bytes())])
}

// A refusal of the office, told by its name and number.
fn refusal_body(alloc: Global, refusal: Refusal) -> Result<Vec<u8>, AllocError>
    ensures { IfOk result (λ body. body.items ≡ refusal_text refusal) }
{
    match refusal.category() {
        Category::UnfitRow(row, cause) => {
            let cause = format!(in alloc; "{cause}")?;
            row_body(alloc, refusal.name(), refusal.number(), row, &cause)
        }
        Category::Missing | Category::Forbidden | Category::Unfit | Category::Unable => {
            name_body(alloc, refusal)
        }
    }
}

// The refusal of no row, told by its name and number alone.
fn name_body(alloc: Global, refusal: Refusal) -> Result<Vec<u8>, AllocError>
    ensures { IfOk result (λ body. body.items ≡ plain_text refusal) }
{
    let cells = [
        Cell::Text(refusal.name().as_bytes()),
        Cell::Number(u64::from(refusal.number())),
    ];
    record(alloc, &fields::REFUSAL, &cells)
}

// The refusal of a row, told by the row and the cause too.
fn row_body<'a>(
    alloc: Global,
    name: &'a str,
    number: u8,
    row: u32,
    cause: &'a str,
) -> Result<Vec<u8>, AllocError>
    ensures { IfOk result (λ body. body.items
        ≡ record_text row_names (row_cells name.now number row cause.now)) }
{
    let cells = [
        Cell::Text(cause.as_bytes()),
        Cell::Text(name.as_bytes()),
        Cell::Number(u64::from(number)),
        Cell::Number(u64::from(row)),
    ];
    record(alloc, &fields::ROW_REFUSAL, &cells)
}

// An answer of the office, where a sale is to have this form.
fn answer_body(alloc: Global, form: Form, answer: &Answer) -> Result<Vec<u8>, AllocError>
    ensures { IfOk result (λ body. body.items ≡ answer_body form answer.now) }
{
    match answer {
        Answer::Done => Vec::from_slice(alloc, b"{\"done\":true}"),
        Answer::Imported(count) => count_body(alloc, &fields::ADDED, *count),
        Answer::Withdrawn(count) => count_body(alloc, &fields::WITHDRAWN, *count),
        Answer::Opened(shift) | Answer::Closed(shift) => count_body(alloc, &fields::SHIFT, *shift),
        Answer::Sold(sale) | Answer::Reprinted(sale) => sale_body(alloc, form, sale),
        Answer::Report(shift, sales) => shift_report(alloc, shift, sales.as_slice()),
    }
}

// One number, under its name.
fn count_body(alloc: Global, names: &[&str; 1], count: u32) -> Result<Vec<u8>, AllocError>
    ensures { IfOk result (λ body. body.items
        ≡ record_text (map now names.now) (number count ∷ [])) }
{
    record(alloc, names, &[Cell::Number(u64::from(count))])
}

// What was found, where a sale is to have this form.
fn found_body(alloc: Global, form: Form, found: &Found) -> Result<Vec<u8>, AllocError>
    ensures { IfOk result (λ body. body.items ≡ found_body form found.now) }
{
    match found {
        Found::Health(health) => health_body(alloc, health),
        Found::Meter(meter) => meter_body(alloc, meter),
        Found::Sale(sale) => sale_body(alloc, form, sale),
        Found::Quote(quote) => quote_body(alloc, quote),
        Found::ShiftTotals(shift, totals) => totals_body(alloc, *shift, totals),
        Found::Tariffs(page) => tariffs_body(alloc, page),
        Found::Meters(page) => meters_body(alloc, page),
        Found::Shifts(page) => shifts_body(alloc, page),
        Found::Sales(page) => sales_body(alloc, page),
    }
}

/// What was found as JSON, a sale too: the body of the reply that tells it so.
///
/// # Errors
/// `AllocError` if there is no memory.
pub fn found_json(alloc: Global, found: &Found) -> Result<Vec<u8>, AllocError>
    ensures { IfOk result (λ body. body.items ≡ found_body Form.Json found.now) }
{
    found_body(alloc, Form::Json, found)
}

// A sale in a form: itself, or its receipt.
fn sale_body(alloc: Global, form: Form, sale: &Sale) -> Result<Vec<u8>, AllocError>
    ensures { IfOk result (λ body. body.items ≡ sale_body form sale.now) }
{
    match form {
        Form::Json => Vec::from_slice(alloc, &sale_text(sale)),
        Form::Paper => receipt(alloc, sale),
    }
}

// The sale that is told as JSON: its text needs no memory of its own.
pub(crate) fn sale_told(outcome: &Outcome) -> Option<&Sale>
    ensures { IfSome result (λ sale. body_of outcome.now ≡ sale_text sale.now) }
{
    match outcome {
        Outcome::Replied(Form::Json, Ok(Answer::Sold(sale) | Answer::Reprinted(sale))) => {
            Some(sale)
        }
        _ => None,
    }
}
