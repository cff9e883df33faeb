//! A door at which one connection comes in.
ghost use Rattle.std.specs.Prelude.{◌≡◌, ⊤, [], Some, false, true};
ghost use Rattle.law_witnesses.specs.Recorded.{uses_in};

use crate::recorded::Recorded;
use command_line::Address;
use conversation::End;
use std::alloc::Global;
use vend_commands::Door;

/// Somebody who sends a text, once. Behind that the door keeps the line, which recorded each use of
/// the connection.
#[derive(Drop)]
pub(crate) struct OneCaller<'a> {
    alloc: Global,
    text: &'a [u8],
    has_come: bool,
    pub(crate) used: Option<Recorded>,
}

impl<'a> OneCaller<'a> {
    pub(crate) fn new(alloc: Global, text: &'a [u8]) -> OneCaller<'a>
        ensures text { result.text.now ≡ text.now }
        ensures has_come { result.has_come ≡ false }
    {
        OneCaller {
            alloc,
            text,
            has_come: false,
            used: None,
        }
    }
}

impl<'a> Door for OneCaller<'a> {
    type Reader = &'a [u8];

    type Writer = Vec<u8>;

    type Line = Recorded;

    ghost listens = { λ _ _ _ _. ⊤ };

    ghost fails = { λ _ _ _. ⊤ };

    ghost accepts = { λ old reader _ line new. (reader.now ≡ old.text.now)
        × (old.has_come ≡ false) × (new.has_come ≡ true) × (uses_in line.made ≡ []) };

    ghost refuses = { λ _ _. ⊤ };

    ghost ends = { λ _ _ _ line _ new. new.used ≡ Some line };

    ghost leaves = { λ _ _. ⊤ };

    fn listen(&mut self, _address: Address) -> Option<u16> {
        None
    }

    fn accept(&mut self) -> Option<(&'a [u8], Vec<u8>, Recorded)> {
        if self.has_come {
            return None;
        }
        self.has_come = true;
        Some((self.text, Vec::new(self.alloc), Recorded::new()))
    }

    fn end(&mut self, reader: Self::Reader, writer: Self::Writer, line: Recorded, _end: End) {
        drop(reader);
        drop(writer);
        self.used = Some(line);
    }

    fn leave<T: Drop>(it: T)
        ensures { ⊤ }
    {
        drop(it);
    }
}
