//! Both offices, the one in tables over a file.

use crate::both::{Both, stop};
use books::Books;
use sqlite::{Alter, Connection, Error, Unknown};
use std::alloc::Global;
use std::fs;
use std::rt::Files;
use std::test::Fail;
use sts_token::BlockTransform;
use vend_core::Lists;

/// What is done in a life of both offices, which comes to an `R`.
///
/// It is over any store: a test that names the store of a file itself takes minutes to prove.
pub trait Life<T: BlockTransform, R> {
    fn live<S: Alter>(self, both: &mut Both<S, T>) -> Result<R, Fail>;
}

/// Changes the tables by these statements, if there are any.
pub fn change_tables<S: Alter>(conn: &mut Connection<S>, sql: &str) -> Result<(), Error> {
    if sql.is_empty() {
        return Ok(());
    }
    conn.execute_batch(sql)
}

// How a life ends.
#[derive(Clone, Copy)]
enum Ending<'a> {
    /// The tables are changed by these statements, and the file is closed.
    Closed(&'a str),
    /// As a program that stops: the log is not copied into the database.
    Stopped,
}

// The lists and the result of a life, and the connection that is left to close, if it is not to end
// as a program that stops. So it ends where a comparison failed.
fn live_on<S: Alter + Drop, T: BlockTransform + Drop, R: Drop, L: Life<T, R> + Drop>(
    books: Books<S, T>,
    lists: Lists<T>,
    life: L,
    ending: Ending<'_>,
) -> Result<(Lists<T>, R, Option<Connection<S>>), Fail> {
    let mut both = Both { books, lists };
    let result = life.live(&mut both);
    match (result, ending) {
        (Ok(result), Ending::Closed(sql)) => {
            let Both { books, lists } = both;
            let mut conn = books.into_connection();
            change_tables(&mut conn, sql)?;
            Ok((lists, result, Some(conn)))
        }
        (result, _) => Ok((stop(both), result?, None)),
    }
}

// This alone names the store of a file.
fn live_until<T: BlockTransform + Drop, R: Drop, L: Life<T, R> + Drop>(
    host: &HostRuntime,
    path: &str,
    transform: T,
    lists: Lists<T>,
    life: L,
    ending: Ending<'_>,
) -> Result<(Lists<T>, R), Fail> {
    let books = match Books::open_file(host, path, Unknown, transform) {
        Ok(books) => books,
        Err((fault, _)) => return Err(fault.into()),
    };
    let (lists, result, left) = live_on(books, lists, life, ending)?;
    if let Some(conn) = left {
        conn.close()?;
    }
    Ok((lists, result))
}

/// A life of the office of a file, beside the lists that an earlier life left. The file is closed
/// at its end, where no comparison failed.
pub fn live<T: BlockTransform + Drop, R: Drop, L: Life<T, R> + Drop>(
    host: &HostRuntime,
    path: &str,
    transform: T,
    lists: Lists<T>,
    life: L,
) -> Result<(Lists<T>, R), Fail> {
    live_until(host, path, transform, lists, life, Ending::Closed(""))
}

/// The same; at the end the tables are changed by these statements.
pub fn live_and_change<T: BlockTransform + Drop, R: Drop, L: Life<T, R> + Drop>(
    host: &HostRuntime,
    path: &str,
    transform: T,
    lists: Lists<T>,
    life: L,
    sql: &str,
) -> Result<(Lists<T>, R), Fail> {
    live_until(host, path, transform, lists, life, Ending::Closed(sql))
}

/// A life that ends as a program that stops: the log is not copied into the database.
pub fn live_and_stop<T: BlockTransform + Drop, R: Drop, L: Life<T, R> + Drop>(
    host: &HostRuntime,
    path: &str,
    transform: T,
    lists: Lists<T>,
    life: L,
) -> Result<(Lists<T>, R), Fail> {
    live_until(host, path, transform, lists, life, Ending::Stopped)
}

/// Removes a database and its log, where they are.
pub fn remove(alloc: Global, files: &impl Files, path: &str) -> Result<(), Fail> {
    let log = format!(in alloc; "{path}-wal")?;
    let _ = fs::remove_file(files, path);
    let _ = fs::remove_file(files, log.as_str());
    Ok(())
}
