//! Requests that are sent in each life, as lines: each begins with a mark, and the replies that it
//! may have follow it, the one in an office that it is new to first.

use office_lines::lines::{stamped_of, told};
use office_rules::{Refusal, Reply, Stamped};
use std::alloc::Global;
use std::test::Fail;

/// Requests, and the replies that each may have.
#[derive(Drop)]
pub(crate) struct Script {
    pub(crate) sent: Vec<Stamped>,
    wanted: Vec<&'static str>,
}

/// The script of these lines. The nibble of a sale is its number, if each sale is new.
pub(crate) fn script_of(alloc: Global, text: &'static str) -> Result<Script, Fail> {
    let (mut sent, mut wanted) = (Vec::new(alloc), Vec::new(alloc));
    let mut sale_count = 0usize;
    for piece in text.split("> ").skip(1) {
        let (line, replies) = piece.split_once('\n').ok_or("no reply")?;
        sent.push(stamped_of(alloc, sale_count, line)?)?;
        wanted.push(replies)?;
        if line.contains(" sell ") {
            sale_count = sale_count.saturating_add(1);
        }
    }
    Ok(Script { sent, wanted })
}

fn is_right(alloc: Global, reply: &Reply, wanted: &str) -> Result<bool, Fail> {
    let told = told(alloc, reply)?;
    Ok(
        wanted
            .lines()
            .any(|line| line.strip_prefix("  ") == Some(told.as_str())),
    )
}

impl Script {
    /// How many of the replies are right, up to a failure of the store. After it each has to be
    /// Stopped; `None` where a reply is another.
    pub(crate) fn answered(&self, alloc: Global, replies: &[Reply]) -> Result<Option<usize>, Fail> {
        let (mut right, mut is_stopped) = (0usize, false);
        for (reply, wanted) in replies.iter().zip(&self.wanted) {
            match reply {
                Err(Refusal::Stopped) if is_stopped => {}
                Err(Refusal::Store) if !is_stopped => is_stopped = true,
                _ if !is_stopped && is_right(alloc, reply, wanted)? => {
                    right = right.saturating_add(1);
                }
                _ => return Ok(None),
            }
        }
        if replies.len() != self.sent.len() {
            return Ok(None);
        }
        Ok(Some(right))
    }
}
