use crate::law::office_law;
use office_decisions::decide;
use office_rules::{Change, Reply, Sale, Shift, Stamped};
use records::Records;
use std::alloc::Global;
use sts_token::BlockTransform;

mod apply;
mod gather;
mod look_up;
mod records;

/// The office over plain vectors, which are searched from end to end.
///
/// Faster offices are compared with it. Contracts see it as an office (`docs/OFFICE.md`).
#[derive(Debug, Drop)]
pub struct Lists<T> {
    alloc: Global,
    transform: T,
    records: Records,
}

impl<T> Lists<T> {
    ghost use Rattle.std.specs.Prelude.{◌≡◌};
    ghost use Rattle.vend_core.specs.Lists.{office_of, transform_of};
    ghost use Rattle.office_rules.specs.Office.{empty_office};

    /// The empty office, without taking memory.
    pub fn new(alloc: Global, transform: T) -> Lists<T>
        ensures office { office_of result ≡ empty_office }
        ensures transform { transform_of result ≡ transform }
    {
        Lists {
            alloc,
            transform,
            records: Records::new(alloc),
        }
    }

    /// The shifts, by number.
    pub fn shifts(&self) -> &[Shift]
        ensures { result.now ≡ (office_of self.now).shifts }
    {
        &self.records.shifts
    }

    /// The sales, by number.
    pub fn sales(&self) -> &[Sale]
        ensures { result.now ≡ (office_of self.now).sales }
    {
        &self.records.sales
    }

    /// The same office, whose next tokens are written with another transform.
    pub fn with_transform<U>(self, transform: U) -> Lists<U>
    where
        T: Drop,
        ensures office { office_of result ≡ office_of self }
        ensures transform { transform_of result ≡ transform }
    {
        Lists {
            alloc: self.alloc,
            transform,
            records: self.records,
        }
    }
}

impl<T: BlockTransform> Lists<T> {
    ghost use Rattle.std.specs.Prelude.{◌≡◌, Err};
    ghost use Rattle.vend_core.specs.Lists.{IsServed, NeedsRoom, office_of, transform_of};
    ghost use Rattle.office_rules.specs.Office.{IsOffice};
    ghost use Rattle.office_rules.specs.declared.decision.refusal.Refusal.{Refusal};

    /// Serves a request: its answer, or why it is refused.
    ///
    /// A refused request leaves the office as it was. Besides the refusals of `docs/OFFICE.md` only
    /// `Refusal::Memory` comes, where a vector found no memory, and only to a request that adds a
    /// row or looks at a list, which it copies: steps, the rows of an import, the sales of a shift.
    pub fn serve(&mut self, at: &Stamped) -> Reply
        ensures served { IsServed (T.forwards (transform_of self.old))
            (office_of self.old) at.now result (office_of self.new) }
        ensures memory { result ≡ Err Refusal.Memory
            → NeedsRoom (T.forwards (transform_of self.old)) (office_of self.old) at.now }
        ensures office { IsOffice (office_of self.old) → IsOffice (office_of self.new) }
        ensures transform { transform_of self.new ≡ transform_of self.old }
    {
        office_law();
        at.keeps_ranges();
        self.served(at)
    }

    // Serves a request, whatever the office that the lists keep.
    fn served(&mut self, at: &Stamped) -> Reply
        ensures served { IsServed (T.forwards (transform_of self.old))
            (office_of self.old) at.now result (office_of self.new) }
        ensures memory { result ≡ Err Refusal.Memory
            → NeedsRoom (T.forwards (transform_of self.old)) (office_of self.old) at.now }
        ensures transform { transform_of self.new ≡ transform_of self.old }
    {
        let facts = gather::facts(self.alloc, &self.records, at)?;
        let Change { edit, answer } = decide(self.alloc, &self.transform, &facts, at)?;
        if let Some(edit) = edit {
            apply::apply(self.alloc, &mut self.records, edit)?;
        }
        Ok(answer)
    }
}
