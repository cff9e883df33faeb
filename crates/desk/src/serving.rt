//! What an office does for an ask.

ghost use Rattle.std.specs.Prelude.{◌≡◌, IfOk, OnErr};
ghost use Rattle.books.specs.Keeps.{seen};
ghost use Rattle.asks.specs.declared.ask.Ask.{Ask};
ghost use Rattle.desk.specs.Answering.{IsServed, books_serve};

use asks::{Ask, Csv};
use books::Books;
use desk_messages::{Form, Outcome, lookup_form, read_rows};
use office_rules::{Moment, Refusal, Request};
use papers::{FileKind, RowFault};
use sqlite::Alter;
use std::alloc::{AllocError, Global};
use sts_token::BlockTransform;

// What comes of an ask of an office at a moment. Where there is no memory to read it nothing is
// done.
pub(crate) fn serve<S: Alter, T: BlockTransform>(
    alloc: Global,
    office: &mut Books<S, T>,
    moment: Moment,
    ask: Ask<'_>,
) -> Result<Outcome, AllocError>
    ensures served { IfOk result (λ outcome.
        IsServed (books_serve seen) moment ask.entry outcome office.old office.new) }
    ensures short { OnErr result (office.new ≡ office.old) }
{
    match ask {
        Ask::Import(kind, csv) => import(alloc, office, moment, kind, &csv),
        Ask::Do(request) => Ok(Outcome::Replied(Form::Json, office.ask(moment, request))),
        Ask::Receipt(sale) => Ok(Outcome::Replied(
            Form::Paper,
            office.ask(moment, Request::Reprint(sale)),
        )),
        Ask::Look(lookup) => Ok(Outcome::Found(
            lookup_form(&lookup),
            office.look_up(moment, &lookup),
        )),
    }
}

// What comes of the import of a file.
fn import<S: Alter, T: BlockTransform>(
    alloc: Global,
    office: &mut Books<S, T>,
    moment: Moment,
    kind: FileKind,
    csv: &Csv<'_>,
) -> Result<Outcome, AllocError>
    ensures served { IfOk result (λ outcome.
        IsServed (books_serve seen) moment (Ask.Import kind csv.now) outcome
        office.old office.new) }
    ensures short { OnErr result (office.new ≡ office.old) }
{
    match read_rows(alloc, kind, csv) {
        Ok(rows) => Ok(Outcome::Replied(Form::Json, office.ask(moment, Request::Import(rows)))),
        Err(RowFault::At(row, cause)) => Ok(Outcome::Replied(
            Form::Json,
            Err(Refusal::ImportRow(row, cause)),
        )),
        Err(RowFault::Memory) => Err(AllocError),
    }
}
