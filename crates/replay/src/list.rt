//! Reads the text of a list. `tools/oracle` says what a line is.

use office_lines::lines::stamped_of;
use office_rules::Stamped;
use std::alloc::Global;
use std::test::Fail;

/// A request and the reply that is expected.
#[derive(Drop)]
pub(crate) struct Exchange<'a> {
    /// The number of the request's line.
    pub(crate) line: usize,
    /// The nibble is not yet that of the next sale.
    pub(crate) request: Stamped,
    pub(crate) expected: &'a str,
}

#[derive(Clone, Copy)]
pub(crate) enum Transform {
    Plain,
    Demo,
}

/// An opening of the office, and what follows up to the next one.
#[derive(Drop)]
pub(crate) struct ListedLife<'a> {
    /// The number of the opening's line.
    pub(crate) line: usize,
    pub(crate) transform: Transform,
    /// The reply to the opening.
    pub(crate) expected: &'a str,
    pub(crate) exchanges: Vec<Exchange<'a>>,
}

/// The lives of a list. On a failure, the file and the line are printed to standard error.
pub(crate) fn read<'a>(
    rt: &HostRuntime,
    path: &str,
    text: &'a str,
) -> Result<Vec<ListedLife<'a>>, Fail> {
    let mut lives = Vec::new(rt.alloc());
    let mut last = None;
    for (place, line) in text.lines().enumerate() {
        let request = last;
        last = None;
        match (request, line.strip_prefix("  ")) {
            (None, None) => last = Some(line),
            // The request is on the line before its reply.
            (Some(request), Some(expected)) => {
                let added = add(rt.alloc(), &mut lives, place, request, expected);
                at_line(rt, path, place, added)?;
            }
            _ => {
                let fail = Fail::new(
                    "each request needs one reply, two spaces in, on the next line",
                );
                at_line(rt, path, place.saturating_add(1), Err(fail))?;
            }
        }
    }
    match last {
        None => Ok(lives),
        Some(_) => Err(Fail::new(format_args!("{path} ends without a reply"))),
    }
}

// Prints where a failure is.
fn at_line(rt: &HostRuntime, path: &str, line: usize, added: Result<(), Fail>) -> Result<(), Fail> {
    if added.is_err() {
        let _ = eprintln!(rt; "{path}, line {line}:");
    }
    added
}

// Begins a life, or adds a request to the last one.
fn add<'a>(
    alloc: Global,
    lives: &mut Vec<ListedLife<'a>>,
    line: usize,
    request: &str,
    expected: &'a str,
) -> Result<(), Fail> {
    let Some(name) = request.strip_prefix("open ") else {
        let request = stamped_of(alloc, 0, request)?;
        let life = lives.last_mut().ok_or("no office is open")?;
        life.exchanges.push(Exchange {
            line,
            request,
            expected,
        })?;
        return Ok(());
    };
    lives.push(ListedLife {
        line,
        transform: named(name)?,
        expected,
        exchanges: Vec::new(alloc),
    })?;
    Ok(())
}

fn named(name: &str) -> Result<Transform, Fail> {
    match name {
        "plain" => Ok(Transform::Plain),
        "demo" => Ok(Transform::Demo),
        _ => Err(Fail::new("no transform")),
    }
}
