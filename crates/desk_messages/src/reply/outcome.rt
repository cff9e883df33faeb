use crate::desk_fault::DeskFault;
use crate::reply::form::Form;
use book_states::Found;
use conversation::MessageFault;
use office_rules::{Refusal, Reply};

/// What comes of a message, which its reply tells.
#[derive(Debug, Drop)]
pub enum Outcome {
    /// It is refused before its target is looked at, and the conversation ends.
    Refused(MessageFault),
    /// It asks nothing of the office.
    Faulty(DeskFault),
    /// It asked the office, which answered this, or it brought rows that can't be read, which is a
    /// refusal as well. A sale is told in this form.
    Replied(Form, Reply),
    /// It looked something up in the office, and this was found, or refused. A sale is told in this
    /// form.
    Found(Form, Result<Found, Refusal>),
}
