ghost use Rattle.std.specs.Prelude.{◌≡◌, false};

use office_rules::Moment;
use sqlite::{Alter, Connection};
use std::alloc::Global;
use sts_token::BlockTransform;

mod ask;
mod attempt;
mod close;
mod files;
mod health;
mod look_up;
mod memory;
mod open;
mod pages;
mod path;
mod serve;
mod serve_all;
mod stopping;
mod totals;

/// An office that is kept in the tables of a database (`docs/PROMISE.md`).
///
/// It holds nothing of the office itself but the number of the next sale and the moment of the last
/// one. After a failure of the store it is stopped: it answers every request so until the office is
/// opened again.
#[derive(Drop)]
pub struct Books<S: Alter, T: BlockTransform> {
    alloc: Global,
    conn: Connection<S>,
    transform: T,
    next_number: u64,
    last_moment: Option<Moment>,
    stopped: bool,
    write_failed: bool,
    ghost outside: { conn.in_transaction ≡ false },
}
