//! What a message means, before the office is asked.

ghost use Rattle.std.specs.Prelude.{◌≡◌, ◌≢◌, ℕ, ℤ, List, Option, Result, Err, Some, pos};
ghost use Rattle.conversation.specs.message.Messages.{Message};
ghost use Rattle.conversation.specs.message.Next.{message_of};
ghost use Rattle.desk_messages.specs.Meaning.{AreRead, IsFor, IsMeaning, form_of, lookup_form};
ghost use Rattle.desk_messages.specs.declared.meaning.Meaning.{Meaning};
ghost use Rattle.office_rules.specs.declared.office.row.Row.{Row};
ghost use Rattle.papers.specs.declared.file_kind.FileKind.{FileKind};
ghost use Rattle.papers.specs.declared.row_fault.RowFault.{RowFault};

use crate::desk_fault::DeskFault;
use crate::named::Named;
use crate::reply::form::Form;
use crate::routes::Routes;
use asks::{Ask, AskFault, Grants, Lookup, ask_law};
use conversation::Received;
use office_rules::Moment;
use papers::import_law;
use std::alloc::Global;

/// What a message means.
#[derive(Drop)]
pub enum Meaning<'b> {
    /// It asks this of the office at this moment.
    Asks(Moment, Ask<'b>),
    /// It asks nothing of the office, for this fault.
    Told(DeskFault),
    /// There was no memory to read it.
    Memory,
}

impl Routes {
    /// What a message means at this second, which the clock gave for it.
    pub fn meaning_of<'b>(&self, alloc: Global, second: i64, message: &Received<'b>) -> Meaning<'b>
        ensures { IsMeaning (message_of message.now) (Some second) result }
    {
        match self.route_of(message.target, message.method) {
            Ok(named) => meaning_at(alloc, &named, second, message),
            Err(fault) => Meaning::Told(fault),
        }
    }
}

// What a message means at this second, whose target names this and whose method asks for it.
fn meaning_at<'b>(alloc: Global, named: &Named, second: i64, message: &Received<'b>) -> Meaning<'b>
    requires { IsFor (message_of message.now) named.now.kind named.now.values.items }
    ensures { IsMeaning (message_of message.now) (Some second) result }
{
    match Moment::of_secs(second) {
        Some(moment) => meaning_at_moment(alloc, named, moment, message),
        None => Meaning::Told(DeskFault::Clock),
    }
}

// What it means at this moment.
fn meaning_at_moment<'b>(
    alloc: Global,
    named: &Named,
    moment: Moment,
    message: &Received<'b>,
) -> Meaning<'b>
    requires { IsFor (message_of message.now) named.now.kind named.now.values.items }
    ensures { IsMeaning (message_of message.now) (Some (pos moment)) result }
{
    match named.kind.ask_in(alloc, &named.values, message.body) {
        Ok(ask) => Meaning::Asks(moment, ask),
        Err(AskFault::OutsideRule) => Meaning::Told(DeskFault::Body),
        Err(AskFault::Memory) => Meaning::Memory,
    }
}

/// The form in which a sale that is looked up is told.
pub fn lookup_form(lookup: &Lookup) -> Form
    ensures { result ≡ lookup_form lookup.now }
{
    form_of(Ask::Look(*lookup).kind().endpoint().grants)
}

// The form in which a sale is told that is granted so.
fn form_of(grants: Grants) -> Form
    ensures { result ≡ form_of grants }
{
    match grants {
        Grants::Paper => Form::Paper,
        _ => Form::Json,
    }
}

/// A message has one meaning wherever memory isn't short, and the rows of a file are read in one
/// way.
pub fn meaning_law()
    ensures one { (m : Message) (now : Option ℤ) (a b : Meaning)
        → IsMeaning m now a → IsMeaning m now b
        → a ≢ Meaning.Memory → b ≢ Meaning.Memory → a ≡ b }
    ensures rows { (kind : FileKind) (csv : List ℕ) (a b : Result (List Row) RowFault)
        → AreRead kind csv a → AreRead kind csv b
        → a ≢ Err RowFault.Memory → b ≢ Err RowFault.Memory → a ≡ b }
{
    ask_law();
    import_law();
}
