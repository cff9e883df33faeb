//! The outcome of a list.

use office_lines::lines::told;
use office_rules::Reply;
use office_testing::both::is_same;
use std::alloc::{AllocError, Global};
use std::test::Fail;

/// The number of requests, and a line for each reply that was not the expected one.
#[derive(Drop)]
pub(crate) struct Outcome<'a> {
    list: &'a str,
    requests: usize,
    others: usize,
    text: String,
}

/// An office's reply to a line.
#[derive(Clone, Copy)]
pub(crate) struct Place {
    pub(crate) line: usize,
    pub(crate) office: &'static str,
}

// The beginnings of replies. An office of a few sales gives each of them and no others.
static REPLIES: [&str; 24] = [
    "done",
    "imported",
    "withdrawn",
    "opened",
    "closed",
    "sold",
    "reprinted",
    "report",
    "refused 1",
    "refused 2",
    "refused 3",
    "refused 4",
    "refused 5",
    "refused 6",
    "refused 7",
    "refused 8",
    "refused 9",
    "refused 10",
    "refused 12",
    "refused 13",
    "refused 14",
    "refused 18",
    "refused 19",
    "refused 20",
];

// It has no clause, so that no proof reads them.
fn replies() -> &'static [&'static str] {
    &REPLIES
}

impl Outcome<'_> {
    /// The outcome before the first request.
    pub(crate) fn new(alloc: Global, list: &str) -> Outcome<'_> {
        Outcome {
            list,
            requests: 0,
            others: 0,
            text: String::new(alloc),
        }
    }

    pub(crate) fn count_request(&mut self) {
        self.requests = self.requests.saturating_add(1);
    }

    /// Notes a reply that is not the expected one.
    pub(crate) fn compare(
        &mut self,
        alloc: Global,
        Place { line, office }: Place,
        reply: &str,
        expected: &str,
    ) -> Result<(), AllocError> {
        if reply == expected {
            return Ok(());
        }
        let list = self.list;
        self.others = self.others.saturating_add(1);
        let note = format!(in alloc; "{list}, line {line}, {office}: {reply}, not {expected}\n")?;
        self.text.push_str(note.as_str())
    }

    /// The same. A line does not have all fields of a reply: these have to be those of plain
    /// vectors.
    pub(crate) fn compare_reply(
        &mut self,
        alloc: Global,
        place: Place,
        (reply, plain): (&Reply, &Reply),
        expected: &str,
    ) -> Result<(), Fail> {
        let line = told(alloc, reply)?;
        self.compare(alloc, place, line.as_str(), expected)?;
        if line.as_str() == expected && !is_same(reply, plain) {
            self.compare(alloc, place, line.as_str(), "with other fields")?;
        }
        Ok(())
    }

    /// The lines of replies, and one for the whole list, with the kinds of replies in its text.
    pub(crate) fn text(self, alloc: Global, lines: &str) -> Result<String, AllocError> {
        let (list, requests, others) = (self.list, self.requests, self.others);
        let mut text = self.text;
        let whole = if others == 0 {
            format!(in alloc; "{list} 3 offices {requests} requests as they should be:")?
        } else {
            format!(in alloc; "{list} 3 offices {requests} requests, {others} other replies:")?
        };
        text.push_str(whole.as_str())?;
        for reply in replies() {
            let begins = format!(in alloc; "\n  {reply} ")?;
            let alone = format!(in alloc; "\n  {reply}\n")?;
            if lines.contains(begins.as_str()) || lines.contains(alone.as_str()) {
                text.push_str(" ")?;
                text.push_str(reply)?;
            }
        }
        Ok(text)
    }
}
