ghost use Rattle.std.specs.Prelude.{◌≡◌, IfErr, MatchOption, None};
ghost use Rattle.office_commands.specs.office.Closed.{IsClosed};
ghost use Rattle.vend_commands.specs.serving.Listening.{IsClosedAfter, IsDeaf, IsServing, Listens};
ghost use Rattle.vend_commands.specs.serving.Listening.{last_line, serving_end};
ghost use Rattle.vend_ports.specs.port.Dial.{dial_of};
ghost use Rattle.office_commands.specs.port.Back.{lets_go_giving};
ghost use Rattle.office_commands.specs.port.Places.{places_of};
ghost use Rattle.vend_commands.specs.port.Machines.{way};
ghost use Rattle.vend_ports.specs.print.Told.{Takes};
ghost use Rattle.office_commands.specs.office.Visited.{seen_in};

use crate::serving::serve;
use books::{Books, OpenFault};
use command_line::{Address, ServeWords, Shipped};
use desk::{Clock, Desk};
use office_commands::{Ended, OfficeFile, close_office, open_office, put_opening};
use office_rules::Refusal;
use sqlite::FileStore;
use sqlite_trees::store::Store;
use std::alloc::Global;
use std::io::Write;
use vend_ports::{CommandEnd, Door, Watched, address_text, put_line, put_refusal};

/// Opens the office, serves its connections, and closes its file as it is left. The door is left as
/// the last connection left it.
pub(crate) fn run<H: OfficeFile, D: Door, C: Clock, E: Write>(
    words: &ServeWords,
    alloc: Global,
    office: H,
    door: D,
    clock: &mut C,
    err: &mut Watched<'_, E>,
) -> Ended<H::Medium>
    ensures { IsServing ⟦<FileStore<H::Medium> as Store>⟧
        (way D.Door D.Reader.remaining D.Writer.contents D.Line.uses)
        (places_of H.Medium.Disk H.Salts.SaltSource H.OfficeFile office result.back)
        door (dial_of C.Clock clock.old) words.now
        err.old err.new result.end }
{
    let mut door = door;
    let salts = office.salts();
    match open_office(
        alloc,
        office,
        &salts,
        words.file,
        words.wait,
        words.transform,
    ) {
        Ok(books) => match listen(words.listen, alloc, &mut door, err) {
            Some(desk) => {
                let served = serve::<H, D, C, E>(
                    words, alloc, &desk, &salts, &mut door, books, clock, err,
                );
                D::leave(door);
                end_with::<H, E>(served, err)
            }
            None => {
                D::leave(door);
                let back = close_office::<H>(books);
                Ended {
                    end: CommandEnd::Refused,
                    back,
                }
            }
        },
        Err(fault) => {
            D::leave(door);
            put_opening(fault, err);
            Ended {
                end: CommandEnd::Refused,
                back: None,
            }
        }
    }
}

// Has a desk, has the door listen, and tells where; or tells why not. Where that cannot be told
// nobody is served.
fn listen<D: Door, E: Write>(
    address: Address,
    alloc: Global,
    door: &mut D,
    err: &mut Watched<'_, E>,
) -> Option<Desk>
    ensures { MatchOption result
        (IsDeaf (way D.Door D.Reader.remaining D.Writer.contents D.Line.uses)
        address door.old door.new err.old err.new)
        (λ _. Listens (way D.Door D.Reader.remaining D.Writer.contents D.Line.uses)
        address door.old door.new err.old err.new) }
{
    let Ok(desk) = Desk::new(alloc) else {
        put_refusal(Refusal::Memory, err);
        return None;
    };
    let Some(port) = door.listen(address) else {
        put_line(&[b"net"], err);
        return None;
    };
    let Ok(text) = address_text(alloc, address, port) else {
        put_refusal(Refusal::Memory, err);
        return None;
    };
    put_line(&[b"listening", text.as_bytes()], err);
    if err.has_failed() {
        return None;
    }
    Some(desk)
}

// Closes the file of the books that are left, and tells why not all connections were served. Of a
// file that was lost nothing is given back.
fn end_with<H: OfficeFile, E: Write>(
    served: Result<(Books<FileStore<H::Medium>, Shipped>, bool), OpenFault>,
    err: &mut Watched<'_, E>,
) -> Ended<H::Medium>
    ensures closed { IsClosedAfter (λ books. IsClosed H.Medium.Disk
        (lets_go_giving H.OfficeFile result.back) (seen_in books)) served }
    ensures lost { IfErr served (λ _. result.back ≡ None) }
    ensures told { Takes err.old err.new (last_line served) }
    ensures end { result.end ≡ serving_end served }
{
    match served {
        Ok((books, all)) => {
            let back = close_office::<H>(books);
            if all {
                return Ended {
                    end: CommandEnd::Done,
                    back,
                };
            }
            put_line(&[b"net"], err);
            Ended {
                end: CommandEnd::Refused,
                back,
            }
        }
        Err(fault) => {
            put_opening(fault, err);
            Ended {
                end: CommandEnd::Refused,
                back: None,
            }
        }
    }
}
