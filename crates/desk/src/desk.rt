ghost use Rattle.std.specs.Prelude.{◌≡◌, ℤ, List, IfOk, OnErr, Some};
ghost use Rattle.books.specs.Keeps.{seen};
ghost use Rattle.conversation.specs.Uses.{Grows, Use};
ghost use Rattle.conversation.specs.message.Next.{message_of};
ghost use Rattle.desk.specs.Answering.{Comes, books_serve};
ghost use Rattle.desk.specs.Converses.{Converses};

use crate::serving::serve;
use books::Books;
use conversation::{Clock, End, Line, MessageFault, Received, Service, Untold, run};
use desk_messages::{Meaning, Outcome, Routes, moment_given, reply_bytes, reply_to};
use sqlite::Alter;
use std::alloc::{AllocError, Global};
use std::io::{Read, Write};
use sts_token::BlockTransform;

/// The desk of an office: it answers the messages of a conversation by what the office replies to
/// their requests, and by what they find there (`docs/DESK.md`). It keeps nothing between
/// conversations but its routes.
#[derive(Drop)]
pub struct Desk {
    routes: Routes,
}

impl Desk {
    /// The desk, or none for want of memory.
    ///
    /// # Errors
    /// `AllocError` if there is no memory.
    pub fn new(alloc: Global) -> Result<Desk, AllocError> {
        match Routes::new(alloc) {
            Ok(routes) => Ok(Desk { routes }),
            Err(error) => Err(error),
        }
    }

    /// Holds the conversation of a reader and a writer over these books: each message that is read
    /// is answered in order, and what it asks served once, before more is asked for. The clock is
    /// read once for each; what is asked comes at the moment that it gives, and the reply has its
    /// date. See `End` for what was written and served by the end; `specs/Converses.antt` says what
    /// holds of it, and `specs/Answering.antt` how books and their lives answer. No more is read
    /// than `specs/Uses.antt` of `conversation` allows (`paced`): while a head is awaited 8192
    /// bytes of it in all, while a body is awaited what it lacks, and nothing after an end.
    pub fn run<S: Alter, T: BlockTransform, R: Read, W: Write, C: Clock>(
        &self,
        alloc: Global,
        reader: &mut R,
        writer: &mut W,
        books: &mut Books<S, T>,
        clock: &mut C,
    ) -> End
        ensures converses { (uses : List Use) × Converses seen (C.reads clock.old)
            (books.old, C.answers clock.old) (books.new, C.answers clock.new)
            (R.remaining reader.old) (R.remaining reader.new)
            (W.contents writer.old) (W.contents writer.new) uses result }
        ensures stays { (given : ℤ) → C.reads clock.new given → C.reads clock.old given }
    {
        run(self, alloc, &mut Untold, reader, writer, books, clock)
    }

    /// Does what `run` does, and passes each read and each write through `line`, which records
    /// them. They come in turn (`paced`): a reply is written before more input is read, and the
    /// last of them is why the conversation ended.
    pub fn run_over<S: Alter, T: BlockTransform, L: Line<R, W>, R: Read, W: Write, C: Clock>(
        &self,
        alloc: Global,
        line: &mut L,
        reader: &mut R,
        writer: &mut W,
        books: &mut Books<S, T>,
        clock: &mut C,
    ) -> End
        ensures converses { (uses : List Use) × Grows (L.uses line.old) (L.uses line.new) uses
            × Converses seen (C.reads clock.old)
            (books.old, C.answers clock.old) (books.new, C.answers clock.new)
            (R.remaining reader.old) (R.remaining reader.new)
            (W.contents writer.old) (W.contents writer.new) uses result }
        ensures stays { (given : ℤ) → C.reads clock.new given → C.reads clock.old given }
    {
        run(self, alloc, line, reader, writer, books, clock)
    }
}

impl Desk {
    // What comes of a message at this second, which the clock gave for it. Where there is no memory
    // to read it nothing is asked of the office.
    fn outcome_of<S: Alter, T: BlockTransform>(
        &self,
        alloc: Global,
        office: &mut Books<S, T>,
        second: i64,
        message: &Received<'_>,
    ) -> Result<Outcome, AllocError>
        ensures comes { IfOk result (λ outcome. Comes (books_serve seen) (message_of message.now)
            (Some second) outcome office.old office.new) }
        ensures short { OnErr result (office.new ≡ office.old) }
    {
        match self.routes.meaning_of(alloc, second, message) {
            Meaning::Asks(moment, ask) => serve(alloc, office, moment, ask),
            Meaning::Told(fault) => Ok(Outcome::Faulty(fault)),
            Meaning::Memory => Err(AllocError),
        }
    }
}

impl<S: Alter, T: BlockTransform> Service<Books<S, T>> for Desk {
    ghost use Rattle.books.specs.Keeps.{seen};
    ghost use Rattle.desk.specs.Answering.{answers_by, books_serve, message_refusal_of};

    ghost step = { answers_by (books_serve seen) };

    ghost refusal = { message_refusal_of };

    fn answer<C: Clock>(
        &self,
        alloc: Global,
        office: &mut Books<S, T>,
        clock: &mut C,
        message: &Received<'_>,
    ) -> Result<Vec<u8>, AllocError> {
        let second = clock.now();
        match self.outcome_of(alloc, office, second, message) {
            Ok(outcome) => {
                let dated = moment_given(second);
                reply_to(alloc, message.method, dated, &outcome, message.closes)
            }
            Err(error) => Err(error),
        }
    }

    fn refuse(&self, alloc: Global, fault: MessageFault) -> Result<Vec<u8>, AllocError> {
        reply_bytes(alloc, None, &Outcome::Refused(fault), true)
    }
}
