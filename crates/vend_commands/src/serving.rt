//! Connections to a door, served one after another over any books.

ghost use Rattle.std.specs.Prelude.{◌≡◌, ◌&&◌, not, ℤ, [], false, if◌then◌else◌, MatchResult};
ghost use Rattle.std.specs.Prelude.{None};
ghost use Rattle.std.specs.Bool.{MatchBool};
ghost use Rattle.command_line.specs.Transform.{forward_of};
ghost use Rattle.sts_fields.specs.Text.{Text};
ghost use Rattle.vend_commands.specs.serving.Connections.{AreLost, AreReady, AreServed, IsHeld};
ghost use Rattle.vend_commands.specs.serving.Connections.{IsUnheld, end_text, open_text, service};
ghost use Rattle.vend_commands.specs.serving.Connections.{stopped_text, written_text};
ghost use Rattle.office_commands.specs.office.Lost.{IsUnreopened};
ghost use Rattle.office_commands.specs.port.Back.{lets_go_giving};
ghost use Rattle.vend_commands.specs.port.Machines.{way};
ghost use Rattle.office_commands.specs.office.Visited.{seen_in};
ghost use Rattle.vend_ports.specs.print.Printed.{open_line};
ghost use Rattle.vend_ports.specs.print.Told.{Takes};

use books::{Books, OpenFault};
use command_line::{ServeWords, Shipped};
use desk::{Clock, Desk};
use office_commands::{OfficeFile, open_again};
use sqlite::{Alter, FileStore};
use std::alloc::Global;
use std::io::Write;
use vend_ports::{Door, Watched, put_open, put_stopped};

/// Serves as many connections as the words ask for, one after another. Answers the books as they
/// are left and whether all connections could be had, or why the file of stopped books was not
/// opened again.
///
/// However a conversation ends, its connection is let go then, and counts. If it left the books
/// stopped, that is told then, and the office is opened again before the next connection is taken.
/// That it is open again is told at once where a read had failed, and else behind the first
/// connection that left a write made. It serves on where that cannot be told.
pub fn serve<H: OfficeFile, D: Door, C: Clock, E: Write>(
    words: &ServeWords,
    alloc: Global,
    desk: &Desk,
    salts: &H::Salts,
    door: &mut D,
    books: Books<FileStore<H::Medium>, Shipped>,
    clock: &mut C,
    err: &mut Watched<'_, E>,
) -> Result<(Books<FileStore<H::Medium>, Shipped>, bool), OpenFault>
    ensures { (printed : Text) × AreServed
        (way D.Door D.Reader.remaining D.Writer.contents D.Line.uses) (C.reads clock.old)
        (forward_of words.now.transform) seen_in
        (IsUnreopened H.Medium.Disk H.Salts.SaltSource (lets_go_giving H.OfficeFile None false))
        words.now.connections
        (service door.old books (C.answers clock.old)) door.new (C.answers clock.new) result printed
        × Takes err.old err.new printed }
{
    let mut books = books;
    for _connection in 0..words.connections {
        let had_failed = books.write_failed();
        books = match readied::<H, E>(alloc, salts, books, words.transform, err) {
            Ok(books) => books,
            Err(fault) => return Err(fault),
        };
        if !hold(alloc, desk, door, &mut books, clock) {
            return Ok((books, false));
        }
        tell_end(had_failed, &books, err);
    }
    Ok((books, true))
}

// Books that are not stopped, or else those that are opened again in their file, which is told
// unless a write had failed: only a write that is made shows that writes work.
fn readied<H: OfficeFile, E: Write>(
    alloc: Global,
    salts: &H::Salts,
    books: Books<FileStore<H::Medium>, Shipped>,
    transform: Shipped,
    err: &mut Watched<'_, E>,
) -> Result<Books<FileStore<H::Medium>, Shipped>, OpenFault>
    ensures ready { MatchResult result
        (AreReady seen_in (forward_of transform) books)
        (AreLost seen_in
        (IsUnreopened H.Medium.Disk H.Salts.SaltSource (lets_go_giving H.OfficeFile None false))
        books) }
    ensures told { MatchResult result
        (λ _. Takes err.old err.new (open_text (seen_in books))) (λ _. Takes err.old err.new []) }
{
    if !books.is_stopped() {
        return Ok(books);
    }
    let write_failed = books.write_failed();
    match open_again::<H>(alloc, salts, books, transform) {
        Ok(books) => {
            tell_open(write_failed, err);
            Ok(books)
        }
        Err(fault) => Err(fault),
    }
}

// Tells that books are open again, unless a write of theirs has failed.
fn tell_open<E: Write>(write_failed: bool, err: &mut Watched<'_, E>)
    ensures { Takes err.old err.new (if write_failed then [] else open_line) }
{
    if !write_failed {
        put_open(err);
    }
}

// Tells of books that a connection left that a write was made, if one had failed before it, and
// that they are stopped, if they are.
fn tell_end<S: Alter, E: Write>(
    had_failed: bool,
    books: &Books<S, Shipped>,
    err: &mut Watched<'_, E>,
)
    ensures { Takes err.old err.new (end_text had_failed (seen_in books.now)) }
{
    tell_written(had_failed, books, err);
    tell_stop(books, err);
}

// Tells that books are open again, if a write had failed and one was made since.
fn tell_written<S: Alter, E: Write>(
    had_failed: bool,
    books: &Books<S, Shipped>,
    err: &mut Watched<'_, E>,
)
    ensures { Takes err.old err.new (written_text had_failed (seen_in books.now)) }
{
    if writes_again(had_failed, books) {
        put_open(err);
    }
}

// Whether a write was made, where one had failed before.
fn writes_again<S: Alter>(had_failed: bool, books: &Books<S, Shipped>) -> bool
    ensures { result ≡ (had_failed && not books.now.write_failed) }
{
    had_failed && !books.write_failed()
}

// Tells that books are stopped, if they are.
fn tell_stop<S: Alter, E: Write>(books: &Books<S, Shipped>, err: &mut Watched<'_, E>)
    ensures { Takes err.old err.new (stopped_text (seen_in books.now)) }
{
    if books.is_stopped() {
        put_stopped(err);
    }
}

// Takes the next connection, holds its conversation, each use of it by its line, and lets it go.
// Answers whether one could be had.
fn hold<S: Alter, D: Door, C: Clock>(
    alloc: Global,
    desk: &Desk,
    door: &mut D,
    books: &mut Books<S, Shipped>,
    clock: &mut C,
) -> bool
    ensures held { MatchBool result
        (IsHeld (way D.Door D.Reader.remaining D.Writer.contents D.Line.uses)
        (C.reads clock.old) seen_in
        (service door.old books.old (C.answers clock.old))
        (service door.new books.new (C.answers clock.new)))
        (IsUnheld (way D.Door D.Reader.remaining D.Writer.contents D.Line.uses) seen_in
        (service door.old books.old (C.answers clock.old))
        (service door.new books.new (C.answers clock.new))) }
    ensures stays { (given : ℤ) → C.reads clock.new given → C.reads clock.old given }
{
    let Some((mut reader, mut writer, mut line)) = door.accept() else {
        return false;
    };
    let end = desk.run_over(alloc, &mut line, &mut reader, &mut writer, books, clock);
    door.end(reader, writer, line, end);
    true
}
