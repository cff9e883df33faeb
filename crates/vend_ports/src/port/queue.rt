//! Who waits at a door while a connection is held.

ghost use Rattle.std.specs.Prelude.{◌≡◌, Bool, ⊤};

use crate::port::network::Listener;
use std::cell::Cell;
use std::rc::Rc;

/// What tells whether somebody waits.
pub trait Queue {
    /// Somebody waited, or nobody, when this was asked.
    ghost tells: { Self → Bool → Type 0 };

    /// Whether somebody waits now.
    fn has_next(&self) -> bool
        ensures { tells self.now result };
}

/// A listener, and the connection that was taken while another one was held.
#[derive(Drop)]
pub struct Listening<L: Listener> {
    listener: L,
    next: Cell<Option<L::Stream>>,
}

impl<L: Listener> Listening<L> {
    /// Nobody was taken yet.
    pub(crate) fn new(listener: L) -> Listening<L>
        ensures { result.listener ≡ listener }
    {
        Listening {
            listener,
            next: Cell::new(None),
        }
    }

    /// The next connection, once there is one.
    pub(crate) fn accept(&self) -> Option<L::Stream> {
        match self.next.replace(None) {
            Some(stream) => Some(stream),
            None => self.listener.taken(),
        }
    }
}

impl<L: Listener> Queue for Rc<Listening<L>> {
    ghost tells = { λ _ _. ⊤ };

    fn has_next(&self) -> bool {
        let next = match self.next.replace(None) {
            Some(stream) => Some(stream),
            None => self.listener.taken_at_once(),
        };
        let has = next.is_some();
        self.next.set(next);
        has
    }
}
