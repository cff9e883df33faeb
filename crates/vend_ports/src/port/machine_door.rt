//! The connections of this machine.

ghost use Rattle.std.specs.Prelude.{◌≡◌, ◌≢◌, ⊤, IfSome, IsSomeAnd};
ghost use Rattle.vend_ports.specs.port.Port.{ListensAt};

use crate::port::door::Door;
use crate::port::network::{Connection, Listener, Network};
use crate::port::patient::PatientReader;
use crate::port::patient_writer::PatientWriter;
use crate::port::queue::Listening;
use command_line::Address;
use conversation::{End, Untold};
use std::alloc::Global;
use std::rc::Rc;
use std::time::Clock;

/// Connections to a port of this machine.
#[derive(Drop)]
pub struct MachineDoor<'a, N: Network, K> {
    net: &'a N,
    clock: &'a K,
    alloc: Global,
    listening: Option<Rc<Listening<N::Listener>>>,
}

impl<'a, N: Network, K> MachineDoor<'a, N, K> {
    /// A door that does not listen yet.
    pub fn new(net: &'a N, clock: &'a K, alloc: Global) -> MachineDoor<'a, N, K> {
        MachineDoor {
            net,
            clock,
            alloc,
            listening: None,
        }
    }
}

impl<'a, N: Network, K: Clock> Door for MachineDoor<'a, N, K> {
    type Reader = PatientReader<'a, K, Rc<Listening<N::Listener>>, N::Stream>;

    type Writer = PatientWriter<'a, K, Rc<Listening<N::Listener>>, N::Stream>;

    // No clause of a socket says which uses were made of it.
    type Line = Untold;

    // At just the address that was asked for, and no wider one.
    ghost listens = { λ old address port new. IsSomeAnd new.listening (λ listening.
        ListensAt N.listens N.Listener.has_port old.net.now listening.value.listener address port) };

    ghost fails = { λ _ _ _. ⊤ };

    // What is read and what is written are of one connection, and each use of it waits for so long
    // at the most (`PatientReader`, `PatientWriter`).
    ghost accepts = { λ old reader writer _ new. (new ≡ old)
        × N.Stream.are_one writer.inner reader.inner };

    ghost refuses = { λ old new. new ≡ old };

    ghost ends = { λ old _ _ _ _ new. new ≡ old };

    ghost leaves = { λ _ _. ⊤ };

    fn listen(&mut self, address: Address) -> Option<u16> {
        let listener = self.net.listen_at(address.socket()).ok()?;
        let port = port_of(&listener, address.port)?;
        self.listening = Rc::new(self.alloc, Listening::new(listener)).ok();
        self.listening.as_ref()?;
        Some(port)
    }

    // A connection that cannot be had twice counts as one that cannot be had.
    fn accept(&mut self) -> Option<(Self::Reader, Self::Writer, Untold)> {
        let listening = self.listening.as_ref()?;
        let stream = listening.accept()?;
        // Else a reply may wait until the peer acknowledges the one before. A connection that
        // refuses it is served all the same.
        let _ = stream.send_at_once();
        let again = stream.again().ok()?;
        let reader = PatientReader::new(self.clock, listening.clone().ok()?, again);
        let writer = PatientWriter::new(self.clock, listening.clone().ok()?, stream);
        Some((reader, writer, Untold))
    }

    fn end(&mut self, reader: Self::Reader, writer: Self::Writer, _line: Untold, _end: End) {
        drop(reader);
        drop(writer);
    }

    fn leave<T: Drop>(it: T)
        ensures { ⊤ }
    {
        drop(it);
    }
}

// The port that a listener has, where that can be told: the one that was asked for, or with 0 the
// one that the system chose, which is never 0.
fn port_of<L: Listener>(listener: &L, asked: u16) -> Option<u16>
    ensures asked { asked ≢ 0 → IfSome result (λ port. port ≡ asked) }
    ensures chosen { asked ≡ 0 → IfSome result (L.has_port listener.now) }
    ensures some { IfSome result (λ port. port ≢ 0) }
{
    if asked != 0 {
        return Some(asked);
    }
    match listener.own_port() {
        Some(0) | None => None,
        Some(port) => Some(port),
    }
}
