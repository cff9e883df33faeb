//! One request: it is decided by what the tables hold, and what it changes is committed before the
//! answer.

ghost use Rattle.std.specs.Prelude.{◌≡◌, ◌≢◌, ◌+◌, ◌-◌, ◌^◌, ◌<◌, true, Some, Err, IfErr, IfOk};
ghost use Rattle.sqlite.specs.State.{HasCleanDisk};
ghost use Rattle.sqlite.specs.Held.{state};
ghost use Rattle.office_rules.specs.Office.{Office};
ghost use Rattle.office_rules.specs.Decision.Requests.{IsStamped};
ghost use Rattle.book_tables.specs.reading.Reading.{HasAllTables};
ghost use Rattle.books.specs.Keeps.{Across};
ghost use Rattle.book_states.specs.Others.{LeavesOthers};
ghost use Rattle.books.specs.Serving.{FailsToServe, HoldsOffice, ServesGranted, ServingEnds};
ghost use Rattle.books.specs.Serving.{moment_after, sales_added};

use super::Books;
use book_edits::commit;
use book_facts::decision_of;
use office_rules::{Edit, Moment, Refusal, Reply, Stamped, store_law};
use sqlite::Alter;
use sts_token::BlockTransform;
use vend_core::office_law;

impl<S: Alter, T: BlockTransform> Books<S, T> {
    // Serves a request at books that are not stopped.
    pub(super) fn attempt(&mut self, at: &Stamped) -> Reply
        requires stamped { IsStamped at.now }
        ensures attempts { Across (λ old new. HasCleanDisk new.state → (o : Office)
            → HoldsOffice o old → ServingEnds old.forward o at.now result new)
            self.old self.new }
        ensures others { Across (λ old new. HasCleanDisk new.state → HasAllTables old.state
            → LeavesOthers old.state new.state) self.old self.new }
        ensures failures { Across (λ old new. HasCleanDisk new.state → HasAllTables old.state
            → IfErr result (FailsToServe at.now old new)) self.old self.new }
        ensures granted { Across (λ old new. HasCleanDisk new.state → HasAllTables old.state
            → IfOk result (λ answer. ServesGranted at.now answer old new)) self.old self.new }
        ensures clean { Across (λ old new. HasCleanDisk new.state → HasCleanDisk old.state)
            self.old self.new }
        ensures never_stopped { result ≢ Err Refusal.Stopped }
        ensures transform { self.new.transform ≡ self.old.transform }
        ensures stopped { self.new.stopped ≡ self.old.stopped }
    {
        office_law();
        store_law();
        // It is large, and not taken apart, so that it is moved once.
        let decided = decision_of(
            self.alloc,
            &mut self.conn,
            &self.transform,
            at,
            self.next_number,
        )?;
        if let Some(edit) = &decided.change.edit {
            match commit(&mut self.conn, edit, decided.prior) {
                Ok(()) => {
                    self.write_failed = false;
                    self.next_number = next_after(edit, self.next_number);
                    self.last_moment = moment_after(edit, self.last_moment);
                }
                Err(refusal) => {
                    self.write_failed = failed_after(refusal, self.write_failed);
                    return Err(refusal);
                }
            }
        }
        Ok(decided.change.answer)
    }
}

// The number of the next sale after an edit.
fn next_after(edit: &Edit, next_number: u64) -> u64
    ensures { next_number < 2 ^ 64 - 1 → result ≡ next_number + sales_added (Some edit.now) }
{
    match edit {
        Edit::AddSale(_) => next_number.saturating_add(1),
        _ => next_number,
    }
}

// The moment of the last sale after an edit.
fn moment_after(edit: &Edit, last_moment: Option<Moment>) -> Option<Moment>
    ensures { result ≡ moment_after (Some edit.now) last_moment }
{
    match edit {
        Edit::AddSale(sale) => Some(sale.moment),
        _ => last_moment,
    }
}

// Whether a write failed and none was made since, where a commit was refused so. For want of
// memory nothing was written.
fn failed_after(refusal: Refusal, write_failed: bool) -> bool
    ensures store { refusal ≡ Refusal.Store → result ≡ true }
    ensures memory { refusal ≡ Refusal.Memory → result ≡ write_failed }
{
    matches!(refusal, Refusal::Store) || write_failed
}
