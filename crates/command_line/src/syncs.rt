ghost use Rattle.std.specs.Prelude.{◌≡◌, IfSome, map};
ghost use Rattle.command_line.specs.Asked.{AskFor, syncs_of};
ghost use Rattle.command_line.specs.Values.{ReadsBy, SaysSyncs};
ghost use Rattle.command_line.specs.declared.asked.Asked.{Asked};

use crate::asked::Asked;
use crate::line::{meant, parse};
use std::alloc::Global;

/// How often a change to an office is synced before it is acknowledged.
#[derive(Clone, Copy, Debug, PartialEq, Eq)]
pub enum Syncs {
    /// Needs a disk that finishes each sector that it begins to write.
    Once,
    /// Whatever a disk leaves of a write that is cut off.
    Twice,
}

impl Syncs {
    /// `full`, as SQLite calls it where a change is synced once; or `twice`.
    pub(crate) fn read(word: &str) -> Option<Syncs>
        ensures { ReadsBy SaysSyncs word.now result }
    {
        match word {
            "full" => Some(Syncs::Once),
            "twice" => Some(Syncs::Twice),
            _ => None,
        }
    }
}

/// How often a change is to be synced: once for `serve --sync full`, and twice for what else the
/// arguments ask for. None where they ask for nothing, or cannot be read for want of memory. Once
/// needs a disk that finishes each sector it begins to write.
pub fn syncs_asked(alloc: Global, words: &[&str]) -> Option<Syncs>
    ensures asked { IfSome result (λ syncs. (asked : Asked)
        × AskFor (map (λ w. w.now) words.now) asked × (syncs_of asked ≡ syncs)) }
    ensures only { IfSome result (λ syncs. (asked : Asked)
        → AskFor (map (λ w. w.now) words.now) asked → syncs_of asked ≡ syncs) }
{
    let Ok(line) = meant(alloc, words) else {
        return None;
    };
    let Ok(matches) = parse(alloc, &line) else {
        return None;
    };
    match Asked::read(alloc, &matches) {
        Ok(asked) => Some(asked.syncs()),
        Err(_) => None,
    }
}
