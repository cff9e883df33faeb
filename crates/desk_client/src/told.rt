ghost use Rattle.std.specs.Prelude.{◌≡◌};
ghost use Rattle.desk_client.specs.Told.{IsAnswer, IsGrantOf, IsStart, IsTellable};
ghost use Rattle.desk_client.specs.Told.{IsTellableRefusal};
ghost use Rattle.desk_messages.specs.reply.Body.{refusal_text};
ghost use Rattle.desk_client.specs.Told.{granted_start, granted_text, refusal_start};
ghost use Rattle.desk_client.specs.Told.{told_start, told_text};
ghost use Rattle.records.specs.Front.{IsFound};

use crate::count::{read_added, read_shift, read_withdrawn};
use crate::meter::read_meter;
use crate::quote::read_quote;
use crate::refusal::{plain_refusal, row_refusal};
use crate::sale::read_sale;
use crate::start::Start;
use crate::totals::read_totals;
use asks::Grants;
use book_states::{MeterSummary, Quote};
use book_tables::Totals;
use office_rules::{Refusal, Sale};

/// What a desk grants.
#[derive(Clone, Copy, Debug, PartialEq, Eq)]
pub enum Granted<'b> {
    Done,
    Imported(u32),
    Withdrawn(u32),
    Shift(u32),
    /// The reply does not tell the nibble of the sale's token: here it is 0.
    Sale(Sale),
    Meter(MeterSummary),
    Quote(Quote),
    /// The number of the shift, and its totals.
    Totals(u32, Totals),
    Paper(&'b [u8]),
    /// Any text; `page_in` reads it.
    Page(&'b [u8]),
}

// What the reply begins with that tells this.
pub(crate) fn granted_start(wanted: Grants) -> Start
    ensures { result ≡ granted_start wanted }
{
    match wanted {
        Grants::Paper => Start::Paper,
        Grants::Done
        | Grants::Imported
        | Grants::Withdrawn
        | Grants::Shift
        | Grants::Sale
        | Grants::Health
        | Grants::Meter
        | Grants::Quote
        | Grants::Totals
        | Grants::Tariffs
        | Grants::Meters
        | Grants::Shifts
        | Grants::Sales => Start::Json,
    }
}

// What a body grants, where this is wanted.
pub(crate) fn read_granted(wanted: Grants, text: &[u8]) -> Option<Granted<'_>>
    ensures { IsFound (λ granted. IsAnswer granted × IsGrantOf wanted granted
        × (text.now ≡ granted_text granted)) result }
{
    match wanted {
        Grants::Done if text == b"{\"done\":true}".as_slice() => Some(Granted::Done),
        Grants::Done => None,
        Grants::Imported => match read_added(text) {
            Some(count) => Some(Granted::Imported(count)),
            None => None,
        },
        Grants::Withdrawn => match read_withdrawn(text) {
            Some(count) => Some(Granted::Withdrawn(count)),
            None => None,
        },
        Grants::Shift => match read_shift(text) {
            Some(number) => Some(Granted::Shift(number)),
            None => None,
        },
        Grants::Sale => match read_sale(text) {
            Some(sale) => Some(Granted::Sale(sale)),
            None => None,
        },
        Grants::Meter => match read_meter(text) {
            Some(meter) => Some(Granted::Meter(meter)),
            None => None,
        },
        Grants::Quote => match read_quote(text) {
            Some(quote) => Some(Granted::Quote(quote)),
            None => None,
        },
        Grants::Totals => match read_totals(text) {
            Some((number, totals)) => Some(Granted::Totals(number, totals)),
            None => None,
        },
        Grants::Paper => Some(Granted::Paper(text)),
        Grants::Health => None,
        Grants::Tariffs | Grants::Meters | Grants::Shifts | Grants::Sales => {
            Some(Granted::Page(text))
        }
    }
}

// The refusal that a body tells.
pub(crate) fn read_refusal(text: &[u8]) -> Option<Refusal>
    ensures { IsFound (λ refusal. IsTellableRefusal refusal × (text.now ≡ refusal_text refusal))
        result }
{
    match row_refusal(text) {
        Some((row, cause)) => Some(Refusal::ImportRow(row, cause)),
        None => plain_refusal(text),
    }
}

/// What a reply tells.
#[derive(Clone, Copy, Debug, PartialEq, Eq)]
pub enum Told<'b> {
    Granted(Granted<'b>),
    /// The office refuses it.
    Refused(Refusal),
    /// The desk's clock is outside the moments of an office, so the office was not asked.
    NoMoment,
}

// What a body tells behind this start, where this is wanted.
#[tactic(auto, using(crate::proofs::HeadLemmas::grant_start))]
pub(crate) fn read_told(start: Start, wanted: Grants, text: &[u8]) -> Option<Told<'_>>
    requires { IsStart wanted start }
    ensures { IsFound (λ told. IsTellable wanted told × (told_start told ≡ start)
        × (text.now ≡ told_text told)) result }
{
    match start {
        Start::Json | Start::Paper => match read_granted(wanted, text) {
            Some(granted) => Some(Told::Granted(granted)),
            None => None,
        },
        Start::Unable if text == b"{\"error\":\"Clock\"}".as_slice() => Some(Told::NoMoment),
        Start::Missing | Start::Forbidden | Start::Unfit | Start::Unable => {
            match refused_at(start, text) {
                Some(refusal) => Some(Told::Refused(refusal)),
                None => None,
            }
        }
    }
}

// The refusal that a body tells behind this start.
fn refused_at(start: Start, text: &[u8]) -> Option<Refusal>
    ensures { IsFound (λ refusal. IsTellableRefusal refusal × (refusal_start refusal ≡ start)
        × (text.now ≡ refusal_text refusal)) result }
{
    match read_refusal(text) {
        Some(refusal) if Start::of(refusal) == start => Some(refusal),
        _ => None,
    }
}
