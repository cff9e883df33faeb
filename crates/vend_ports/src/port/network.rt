//! The calls of a network that the ports make, each by a name that says what it does. What stands
//! over these traits is proved for every network. That the computer's calls do what is said of them
//! no contract knows: the implementations here are that alone.

ghost use Rattle.std.specs.Prelude.{ℕ, List, None, Option, ⊤, IfOk, IfSome};
ghost use Rattle.std.specs.Duration.{as_nanos};
ghost use Rattle.std.specs.Io.{ReadsAtMost, WritesAtMost};
ghost use Rattle.std.specs.Io.KnownBytes.{ReadConsumes, WriteAppends};
ghost use Rattle.std.specs.declared.net.socket_addr.SocketAddr.{SocketAddr};

use std::io::{self, Read, Write};
use std::net::{Net, OpenListener, OpenStream, Shutdown, SocketAddr, TcpListener, TcpStream};
use std::time::Duration;

/// What is read, by reads of which each waits no longer than it says.
pub trait ReadsWithin {
    /// The bytes that are left to read, where they are known.
    ghost remaining: { Self → Option (List ℕ) } = { λ _. None };

    /// By one read the first became the second, and waited no longer than so many nanoseconds.
    ghost waits: { Self → ℕ → Self → Type 0 };

    /// Reads some bytes as soon as they come. Fails with `WouldBlock` once it has waited so long.
    fn read_within(&mut self, wait: Duration, buf: &mut [u8]) -> io::Result<usize>
        ensures bound { ReadsAtMost result buf.new }
        ensures bytes { ReadConsumes (remaining self.old) (remaining self.new) result buf.new }
        ensures waits { waits self.old (as_nanos wait) self.new };
}

impl<S: OpenStream + Read> ReadsWithin for S {
    ghost remaining = { λ stream. S.remaining stream };

    ghost waits = { λ _ _ _. ⊤ };

    fn read_within(&mut self, wait: Duration, buf: &mut [u8]) -> io::Result<usize> {
        self.set_read_timeout(Some(wait))?;
        self.read(buf)
    }
}

/// What is written to, by writes of which each waits no longer than it says. It keeps nothing back.
pub trait WritesWithin {
    /// The bytes that it holds, where they are known.
    ghost contents: { Self → Option (List ℕ) } = { λ _. None };

    /// By one write the first became the second, and waited no longer than so many nanoseconds.
    ghost waits: { Self → ℕ → Self → Type 0 };

    /// Writes some bytes as soon as the peer takes them. Fails with `WouldBlock` once it has waited
    /// so long.
    fn write_within(&mut self, wait: Duration, text: &[u8]) -> io::Result<usize>
        ensures bound { WritesAtMost result text.now }
        ensures bytes { WriteAppends (contents self.old) (contents self.new) result text.now }
        ensures waits { waits self.old (as_nanos wait) self.new };
}

impl<S: OpenStream + Write> WritesWithin for S {
    ghost contents = { λ stream. S.contents stream };

    ghost waits = { λ _ _ _. ⊤ };

    fn write_within(&mut self, wait: Duration, text: &[u8]) -> io::Result<usize> {
        self.set_write_timeout(Some(wait))?;
        self.write(text)
    }
}

/// A connection.
pub trait Connection: ReadsWithin + WritesWithin {
    /// Both are of one connection.
    ghost are_one: { Self → Self → Type 0 };

    /// The same connection once more.
    fn again(&self) -> io::Result<Self>
    where
        Self: Sized,
        ensures { IfOk result (are_one self.now) };

    /// Sends each piece at once, and not after the peer has acknowledged the one before.
    fn send_at_once(&self) -> io::Result<()>;

    /// Nothing more is written. The other end is told so.
    fn end_writing(&self) -> io::Result<()>;
}

impl<S: OpenStream + Read + Write> Connection for S {
    ghost are_one = { λ _ _. ⊤ };

    fn again(&self) -> io::Result<S> {
        self.try_clone()
    }

    fn send_at_once(&self) -> io::Result<()> {
        self.set_nodelay(true)
    }

    fn end_writing(&self) -> io::Result<()> {
        self.shutdown(Shutdown::Write)
    }
}

/// A socket that listens.
pub trait Listener {
    /// What comes in at it.
    type Stream: Drop;

    /// It has this port.
    ghost has_port: { Self → ℕ → Type 0 };

    /// The port, where that can be told.
    fn own_port(&self) -> Option<u16>
        ensures { IfSome result (has_port self.now) };

    /// The next connection, once there is one. A wait that the system interrupts goes on.
    fn taken(&self) -> Option<Self::Stream>;

    /// The next connection, if it is there.
    fn taken_at_once(&self) -> Option<Self::Stream>;
}

impl<L: OpenListener> Listener for L {
    type Stream = L::Stream;

    ghost has_port = { λ _ _. ⊤ };

    fn own_port(&self) -> Option<u16> {
        match self.local_addr() {
            Ok(address) => Some(address.port()),
            Err(_) => None,
        }
    }

    fn taken(&self) -> Option<L::Stream> {
        match self.accept() {
            Ok((stream, _)) => Some(stream),
            Err(_) => None,
        }
    }

    fn taken_at_once(&self) -> Option<L::Stream> {
        if self.set_nonblocking(true).is_err() {
            return None;
        }
        let next = self.taken();
        let _ = self.set_nonblocking(false);
        next
    }
}

/// Where sockets listen, and connections are made.
pub trait Network {
    /// A connection.
    type Stream: Connection + Drop;

    /// A socket that listens.
    type Listener: Listener<Stream = Self::Stream> + Drop;

    /// This socket listens at just this address and port, or with port 0 at one that the system
    /// chose.
    ghost listens: { Self → SocketAddr → Self.Listener → Type 0 };

    /// This connection was made with this address and port, and that waited no longer than so many
    /// nanoseconds.
    ghost connects: { Self → SocketAddr → (wait : ℕ) → Self.Stream → Type 0 };

    /// Listens at this address and port.
    fn listen_at(&self, socket: SocketAddr) -> io::Result<Self::Listener>
        ensures { IfOk result (listens self.now socket) };

    /// Makes a connection with this address and port. Fails once it has waited so long.
    fn connect_within(&self, socket: SocketAddr, wait: Duration) -> io::Result<Self::Stream>
        ensures { IfOk result (connects self.now socket (as_nanos wait)) };
}

impl<N: Net> Network for N {
    type Stream = N::Stream;

    type Listener = N::Listener;

    ghost listens = { λ _ _ _. ⊤ };

    ghost connects = { λ _ _ _ _. ⊤ };

    fn listen_at(&self, socket: SocketAddr) -> io::Result<N::Listener> {
        TcpListener::bind(self, socket)
    }

    fn connect_within(&self, socket: SocketAddr, wait: Duration) -> io::Result<N::Stream> {
        TcpStream::connect_timeout(self, &socket, wait)
    }
}
