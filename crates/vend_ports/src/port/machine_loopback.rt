//! The connection that a command makes on this machine.

ghost use Rattle.std.specs.Prelude.{⊤};
ghost use Rattle.vend_ports.specs.port.Port.{ConnectsTo};
ghost use Rattle.vend_ports.specs.port.Waits.{connecting_time};

use crate::port::command_stream::CommandStream;
use crate::port::loopback::Loopback;
use crate::port::network::{Connection, Listener, Network};
use crate::port::terminal::Terminal;
use command_line::Address;
use std::io::{self, ErrorKind, Write};
use std::time::{Clock, Duration, Instant};

// For so many seconds a desk may let a caller wait for the connection.
const CONNECTING: u64 = 10;

// This machine, by the address that it alone reaches, at a port that the system chooses.
const ITSELF: Address = Address {
    first: 127,
    second: 0,
    third: 0,
    fourth: 1,
    port: 0,
};

/// The connection that a command makes on this machine.
#[derive(Drop)]
pub struct MachineLoopback<'a, N: Network, H> {
    net: &'a N,
    host: &'a H,
}

impl<'a, N: Network, H> MachineLoopback<'a, N, H> {
    /// No connection was made. While one waits, `host` is told so.
    pub fn new(net: &'a N, host: &'a H) -> MachineLoopback<'a, N, H> {
        MachineLoopback { net, host }
    }
}

impl<'a, N: Network, H: Clock + Terminal> Loopback for MachineLoopback<'a, N, H> {
    type Stream = CommandStream<'a, H, N::Stream>;

    ghost joins = { λ _ _. ⊤ };

    // What is read and what is written at the other end are of one connection.
    ghost connects = { λ _ _ _ reader writer. N.Stream.are_one writer.inner reader.inner };

    ghost lacks = { λ _. ⊤ };

    // With just the address that was asked for, and it waited for so long at the most. So does each
    // use of it (`CommandStream`).
    ghost calls = { λ loopback address stream.
        ConnectsTo N.connects loopback.net.now address connecting_time stream.inner };

    ghost misses = { λ _ _. ⊤ };

    ghost ends = { λ _ _. ⊤ };

    ghost leaves = { λ _ _. ⊤ };

    fn connect(self, text: &[u8]) -> io::Result<(Self::Stream, Self::Stream, Self::Stream)> {
        let began = Instant::now(self.host).ok();
        let listener = self.net.listen_at(ITSELF.socket())?;
        let Some(port) = listener.own_port() else {
            return Err(ErrorKind::AddrNotAvailable.into());
        };
        let there = Address { port, ..ITSELF };
        let patience = Duration::from_secs(CONNECTING);
        let stream = self.net.connect_within(there.socket(), patience)?;
        let mut near = CommandStream::new(self.host, began, stream);
        near.write_all(text)?;
        near.end_writing()?;
        let Some(far) = listener.taken() else {
            return Err(ErrorKind::ConnectionAborted.into());
        };
        // Else each reply but the first waits for the one before to be acknowledged.
        far.send_at_once()?;
        let reader = CommandStream::new(self.host, began, far.again()?);
        let far = CommandStream::new(self.host, began, far);
        Ok((near, reader, far))
    }

    fn call(self, address: Address) -> io::Result<Self::Stream> {
        let began = Instant::now(self.host).ok();
        let patience = Duration::from_secs(CONNECTING);
        let stream = self.net.connect_within(address.socket(), patience)?;
        Ok(CommandStream::new(self.host, began, stream))
    }

    fn end<S: Drop>(stream: S)
        ensures { ⊤ }
    {
        drop(stream);
    }

    fn leave<T: Drop>(it: T)
        ensures { ⊤ }
    {
        drop(it);
    }
}
