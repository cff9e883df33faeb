//! Something that is looked up in an open office, and what is printed of it.

ghost use Rattle.books.specs.Keeps.{seen};
ghost use Rattle.office_commands.specs.commands.LookedUp.{IsLookedUp, IsRead, TellsText};
ghost use Rattle.vend_ports.specs.print.Told.{outputs};

use crate::office::listing::list;
use books::{Books, Found, Lookup};
use desk_commands::put_found;
use office_rules::{Moment, Refusal};
use sqlite::Alter;
use std::alloc::Global;
use std::io::Write;
use sts_token::BlockTransform;
use vend_ports::{CommandEnd, Watched, put_refusal};

/// Prints what is looked up in books at a moment, or all pages from there on, or tells why it is
/// not there.
pub(crate) fn read<S: Alter, T: BlockTransform, O: Write, E: Write>(
    alloc: Global,
    books: &mut Books<S, T>,
    moment: Moment,
    paged: bool,
    lookup: &Lookup,
    json: bool,
    out: &mut Watched<'_, O>,
    err: &mut Watched<'_, E>,
) -> CommandEnd
    ensures { IsRead moment paged lookup.now json (seen books.old) (seen books.new)
        (outputs out.old out.new err.old err.new) result }
{
    if paged {
        list(alloc, books, moment, *lookup, json, out, err)
    } else {
        look_up(alloc, books, moment, lookup, json, out, err)
    }
}

// Looks something up in books at a moment, and prints what is found, or tells why nothing is.
fn look_up<S: Alter, T: BlockTransform, O: Write, E: Write>(
    alloc: Global,
    books: &mut Books<S, T>,
    moment: Moment,
    lookup: &Lookup,
    json: bool,
    out: &mut Watched<'_, O>,
    err: &mut Watched<'_, E>,
) -> CommandEnd
    ensures { IsLookedUp moment lookup.now json (seen books.old) (seen books.new)
        (outputs out.old out.new err.old err.new) result }
{
    match books.look_up(moment, lookup) {
        Ok(found) => tell_found(alloc, lookup, &found, json, out, err),
        Err(refusal) => {
            put_refusal(refusal, err);
            CommandEnd::Refused
        }
    }
}

/// Prints what was found, or tells that there was no room for its text.
pub(crate) fn tell_found<O: Write, E: Write>(
    alloc: Global,
    lookup: &Lookup,
    found: &Found,
    json: bool,
    out: &mut Watched<'_, O>,
    err: &mut Watched<'_, E>,
) -> CommandEnd
    ensures { TellsText json lookup.now found.now
        (outputs out.old out.new err.old err.new) result }
{
    match put_found(alloc, lookup, found, json, out) {
        Ok(()) => CommandEnd::Done,
        Err(_) => {
            put_refusal(Refusal::Memory, err);
            CommandEnd::Refused
        }
    }
}
