//! What a connection of the desk is set to.
use std::io::ErrorKind;
use std::net::{OpenListener, OpenStream, TcpListener, TcpStream};
use std::test::Fail;
use std::time::Duration;
use vend_commands::{Connection, ReadsWithin, WritesWithin};

// It waits for a silent peer for no longer than each use says, both ways, and for no
// acknowledgement.
#[test]
fn options_of_a_connection(rt: HostRuntime) -> Result<(), Fail> {
    let listener = TcpListener::bind(&rt, "127.0.0.1:0")?;
    let mut stream = TcpStream::connect(&rt, listener.local_addr()?)?;
    stream.send_at_once()?;
    let wait = Duration::from_millis(20);
    let silent = match stream.read_within(wait, &mut [0; 1]) {
        Ok(_) => false,
        Err(error) => error.kind() == ErrorKind::WouldBlock,
    };
    let taken = stream.write_within(wait, b"a")?;
    let mut again = stream.again()?;
    if silent
        && taken == 1
        && again.write_within(wait, b"b")? == 1
        && stream.read_timeout()? == Some(wait)
        && stream.write_timeout()? == Some(wait)
        && stream.nodelay()?
    {
        return Ok(());
    }
    Err(Fail::new("another option"))
}
