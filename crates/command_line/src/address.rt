//! Where the desk listens: four numbers and a port.

ghost use Rattle.std.specs.Prelude.{MatchOption, ℕ};
ghost use Rattle.sts_fields.specs.Text.{Text};
ghost use Rattle.command_line.specs.Address.{BeginsWithOctet, EndsWithPort, IsSocketOf};
ghost use Rattle.command_line.specs.Address.{SaysAddress};
ghost use Rattle.command_line.specs.Values.{ReadsBy};

use crate::values;
use std::net::{Ipv4Addr, SocketAddr, SocketAddrV4};

/// An IPv4 address, number by number, and a port.
#[derive(Clone, Copy, Debug, PartialEq, Eq)]
pub struct Address {
    pub first: u8,
    pub second: u8,
    pub third: u8,
    pub fourth: u8,
    /// With 0 the system chooses one.
    pub port: u16,
}

impl Address {
    /// Reads four numbers below 256 with points between them, a colon and a port below 65536.
    pub(crate) fn read(word: &str) -> Option<Address>
        ensures { ReadsBy SaysAddress word.now result }
    {
        let (first, rest) = octet_before(word)?;
        let (second, rest) = octet_before(rest)?;
        let (third, rest) = octet_before(rest)?;
        let (fourth, port) = octet_and_port(rest)?;
        Some(Address {
            first,
            second,
            third,
            fourth,
            port,
        })
    }

    /// This address and port, as the system's calls take them.
    pub fn socket(self) -> SocketAddr
        ensures { IsSocketOf self result }
    {
        let ip = Ipv4Addr::new(self.first, self.second, self.third, self.fourth);
        SocketAddr::V4(SocketAddrV4::new(ip, self.port))
    }
}

// The number in front of the first point, and what stands behind that.
fn octet_before(text: &str) -> Option<(u8, &str)>
    ensures { MatchOption result
        ((octet : ℕ) (rest : Text) → ¬ BeginsWithOctet text.now octet rest)
        (λ found. BeginsWithOctet text.now found.0 found.1.now) }
{
    let (number, rest) = text.split_once('.')?;
    Some((values::octet(number)?, rest))
}

// The number in front of the colon, and the port behind it.
fn octet_and_port(text: &str) -> Option<(u8, u16)>
    ensures { MatchOption result
        ((octet port : ℕ) → ¬ EndsWithPort text.now octet port)
        (λ found. EndsWithPort text.now found.0 found.1) }
{
    let (number, port) = text.split_once(':')?;
    Some((values::octet(number)?, values::port(port)?))
}
